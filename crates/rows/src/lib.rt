// The header and the rows of a sheet. Any bytes are taken as a sheet, with any number of areas and any index: a word past the end is 0.
// Nothing of `std` is called, no `from_be_bytes`: `runs::proofs::Machine` holds each function that is called, and the kit shuts the code of `std`.
#![tactic(auto)]

ghost use Rattle.std.specs.Prelude.{◌≡◌, ◌+◌, ◌*◌, ◌/◌, ◌%◌, ◌≤◌, ◌<◌, length};
ghost use Rattle.sheet_rules.specs.Rows.{word, area_count, item_count, bank_words, functions, address_place, rate_place, clear_address, has_records, header_of, record_from, record_area, area_at, item_from, item_start, item_end, item_row};

use sheet_rules::{Area, Header, Item, RecordArea};

// Area rows begin behind the header: rule S2.
const AREA_ROWS: usize = 12;

// A word of the sheet, counted from 0; 0 past the end.
fn word(sheet: &[u8], n: usize) -> u16
    requires { n < 0x200000 }
    ensures { result ≡ word sheet.now n }
{
    words::word_at(sheet, 2 * n)
}

// Header word 1: rule S1. This function and those up to `has_records` are names for words of the header, which `word` alone reads.
pub fn area_count(sheet: &[u8]) -> u16
    ensures { result ≡ area_count sheet.now }
{
    word(sheet, 1)
}

// Header word 3: rule S3.
pub fn item_count(sheet: &[u8]) -> u16
    ensures { result ≡ item_count sheet.now }
{
    word(sheet, 3)
}

// Header word 5: rule S5.
pub fn bank_words(sheet: &[u8]) -> u16
    ensures { result ≡ bank_words sheet.now }
{
    word(sheet, 5)
}

// Header word 6: rule S6.
pub fn functions(sheet: &[u8]) -> u16
    ensures { result ≡ functions sheet.now }
{
    word(sheet, 6)
}

// Header word 8: rule S8.
pub fn address_place(sheet: &[u8]) -> u16
    ensures { result ≡ address_place sheet.now }
{
    word(sheet, 8)
}

// Header word 9: rule S9.
pub fn rate_place(sheet: &[u8]) -> u16
    ensures { result ≡ rate_place sheet.now }
{
    word(sheet, 9)
}

// Header word 10: rule S10.
pub fn clear_address(sheet: &[u8]) -> u16
    ensures { result ≡ clear_address sheet.now }
{
    word(sheet, 10)
}

// Header word 11: rule S11. A flag beside `record_area`, and no Option of it: the definitions are two, `has_records` and `record_area`.
pub fn has_records(sheet: &[u8]) -> bool
    ensures { result ≡ has_records sheet.now }
{
    word(sheet, 11) == 1
}

// The header as one value, for a caller that needs most of it. Its last word is read first: where that is inside, so are the others.
pub fn header(sheet: &[u8]) -> Header
    ensures { result ≡ header_of sheet.now }
{
    Header {
        record_areas: word(sheet, 11),
        version: word(sheet, 0),
        areas: word(sheet, 1),
        area_offset: word(sheet, 2),
        items: word(sheet, 3),
        item_offset: word(sheet, 4),
        bank: word(sheet, 5),
        functions: word(sheet, 6),
        words: word(sheet, 7),
        address: word(sheet, 8),
        rate: word(sheet, 9),
        clear: word(sheet, 10),
    }
}

// A word whose two bytes are inside the sheet: the same with no test.
#[tactic(auto, unfolding(words::specs::Words::word_at))]
fn word_inside(sheet: &[u8], n: usize) -> u16
    requires { 2 * n + 2 ≤ length sheet.now }
    ensures { result ≡ word sheet.now n }
{
    let upper = sheet[2 * n] as u16;
    let lower = sheet[2 * n + 1] as u16;
    upper * 256 + lower
}

// Two words as one number, the upper one first.
fn joined(upper: u16, lower: u16) -> u32
    ensures { result ≡ upper * 65536 + lower }
{
    (upper as u32) * 65536 + (lower as u32)
}

// An item row from a word on, wherever it stands. Kept apart from the rows that are inside, so that those are read in the place of a call.
#[tactic(auto, unfolding(sheet_rules::specs::Rows::item_from))]
fn past(sheet: &[u8], n: usize) -> Item
    requires { n < 0x100000 }
    ensures { (result ≡ item_from sheet.now n) × (result.low / 65536 ≡ word sheet.now (n + 2)) × (result.low % 65536 ≡ word sheet.now (n + 3)) }
{
    Item {
        kind: word(sheet, n),
        place: word(sheet, n + 1),
        low: joined(word(sheet, n + 2), word(sheet, n + 3)),
        high: joined(word(sheet, n + 4), word(sheet, n + 5)),
    }
}

// The area row at an index. One test for the whole row: each row of a sound sheet is inside it. A row past the end is the first four
// words of an item row there.
#[tactic(auto, unfolding(sheet_rules::specs::Rows::area_at, sheet_rules::specs::Rows::item_from))]
pub fn area_row(sheet: &[u8], k: u16) -> Area
    ensures { result ≡ area_at sheet.now k }
{
    let n = AREA_ROWS + 4 * (k as usize);
    if 2 * n + 8 <= sheet.len() {
        return Area {
            first: word_inside(sheet, n),
            last: word_inside(sheet, n + 1),
            place: word_inside(sheet, n + 2),
            access: word_inside(sheet, n + 3),
        };
    }
    let row = past(sheet, n);
    Area {
        first: row.kind,
        last: row.place,
        place: (row.low / 65536) as u16,
        access: (row.low % 65536) as u16,
    }
}

// The word at which the item row at an index begins, behind so many area rows. Their number is handed in, here and below, and not read of the sheet: a walk reads
// it once.
fn item_start(areas: u16, k: u16) -> usize
    ensures { result ≡ item_start areas k }
{
    AREA_ROWS + 4 * (areas as usize) + 6 * (k as usize)
}

// How many bytes there are up to the end of the item row at an index. A walk over the item rows of a sound sheet goes on while this is
// not above the sheet's length: then no row is tested again where it is read.
pub fn item_end(areas: u16, k: u16) -> usize
    ensures { result ≡ item_end areas k }
{
    2 * item_start(areas, k) + 12
}

// The item row at an index, behind so many area rows. One test for the whole row.
#[tactic(auto, unfolding(sheet_rules::specs::Rows::item_from))]
pub fn item_row(sheet: &[u8], areas: u16, k: u16) -> Item
    ensures { result ≡ item_row sheet.now areas k }
{
    let n = item_start(areas, k);
    if item_end(areas, k) <= sheet.len() {
        return Item {
            kind: word_inside(sheet, n),
            place: word_inside(sheet, n + 1),
            low: joined(word_inside(sheet, n + 2), word_inside(sheet, n + 3)),
            high: joined(word_inside(sheet, n + 4), word_inside(sheet, n + 5)),
        };
    }
    past(sheet, n)
}

// The first place of the item row at an index, read alone, for a search needs no more of the row.
#[tactic(auto, unfolding(sheet_rules::specs::Rows::item_from))]
pub fn item_place(sheet: &[u8], areas: u16, k: u16) -> u16
    ensures { result ≡ (item_row sheet.now areas k).place }
{
    word(sheet, item_start(areas, k) + 1)
}

// The record row behind so many area rows and item rows. One test for the whole row, as in `area_row`.
#[tactic(auto, unfolding(sheet_rules::specs::Rows::item_from))]
pub fn record_row(sheet: &[u8], areas: u16, items: u16) -> RecordArea
    ensures { result ≡ record_from sheet.now (item_start areas items) }
{
    let n = item_start(areas, items);
    if 2 * n + 6 <= sheet.len() {
        return RecordArea {
            first: word_inside(sheet, n),
            records: word_inside(sheet, n + 1),
            words: word_inside(sheet, n + 2),
        };
    }
    let row = past(sheet, n);
    RecordArea {
        first: row.kind,
        records: row.place,
        words: (row.low / 65536) as u16,
    }
}

// The record area: rules S11 and S80. One without records where the sheet has none.
#[tactic(auto, unfolding(sheet_rules::specs::Rows::record_area))]
pub fn record_area(sheet: &[u8]) -> RecordArea
    ensures { result ≡ record_area sheet.now }
{
    if !has_records(sheet) {
        return RecordArea {
            first: 0,
            records: 0,
            words: 0,
        };
    }
    record_row(sheet, area_count(sheet), item_count(sheet))
}
