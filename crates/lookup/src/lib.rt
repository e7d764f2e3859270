// What lies at an address, the address of a place, and how far a run of addresses is open: one walk over the area rows each.
// Nothing of `std` is called, no `find` nor `is_none`: `runs::proofs::Machine` holds each function that is called, and the kit shuts the code of `std`.
#![tactic(auto)]

ghost use Rattle.std.specs.Prelude.{◌≡◌, true, [], ◌∷◌, Some};
ghost use Rattle.sheet_rules.specs.Rows.{areas};
ghost use Rattle.sheet_rules.specs.Rules.{in_area, place_in_area};
ghost use Rattle.sheet_rules.specs.Lookup.{lies_in, place_in, address_of};
ghost use Rattle.sheet_rules.specs.Runs.{permits, carried, run_from};

use sheet_rules::{Area, Lies, Purpose, Run};

// The three accesses: rule S21. They stay numbers: `permits` and `Lies` speak of any access that a row may have.
const READ_ONLY: u16 = 1;

const WRITE_ONLY: u16 = 2;

const READ_AND_WRITE: u16 = 3;

// What lies at an address of an area.
#[tactic(auto, unfolding(sheet_rules::specs::Lookup::lies_in))]
fn lies_there(area: Area, address: u32) -> Lies
    requires { in_area address area ≡ true }
    ensures { Some result ≡ lies_in (area ∷ []) address }
{
    Lies {
        place: area.place as u32 + (address - area.first as u32),
        access: area.access,
    }
}

// What lies at an address: a place of the bank with the access of its area, or nothing.
pub fn lies_at(sheet: &[u8], address: u32) -> Option<Lies>
    ensures { result ≡ lies_in (areas sheet.now) address }
{
    for k in 0..rows::area_count(sheet) {
        let area = rows::area_row(sheet, k);
        if one_row::in_area(address, area) {
            return Some(lies_there(area, address));
        }
    }
    None
}

// The place of what lies somewhere; 0 where nothing lies there, and no Option: the definition `place_in` is that number. So it is in a `Run`.
pub fn place_in(lies: Option<Lies>) -> u32
    ensures { result ≡ place_in lies }
{
    match lies {
        Some(lies) => lies.place,
        None => 0,
    }
}

// Whether a place is one of an area's.
fn has_place(area: Area, place: u16) -> bool
    ensures { result ≡ place_in_area place area }
{
    area.place <= place && area.first as u32 + (place - area.place) as u32 <= area.last as u32
}

// The address of a place; 0x10000, which is no address, where no area has the place. It is no Option: the rules' definition `address_of` says so.
pub fn address_of(sheet: &[u8], place: u16) -> u32
    ensures { result ≡ address_of (areas sheet.now) place }
{
    for k in 0..rows::area_count(sheet) {
        let area = rows::area_row(sheet, k);
        if has_place(area, place) {
            return area.first as u32 + (place - area.place) as u32;
        }
    }
    0x10000
}

// Whether an access permits the purpose.
fn permitted(purpose: Purpose, access: u16) -> bool
    ensures { result ≡ permits purpose access }
{
    match purpose {
        Purpose::Read => access == READ_ONLY || access == READ_AND_WRITE,
        Purpose::Write => access == WRITE_ONLY || access == READ_AND_WRITE,
    }
}

// Where an area carries an address to.
fn carried(purpose: Purpose, area: Area, address: u32) -> u32
    ensures { result ≡ carried purpose area address }
{
    if one_row::in_area(address, area) && permitted(purpose, area.access) {
        area.last as u32 + 1
    } else {
        address
    }
}

// The run of addresses that are open to the purpose from a start on: the place of the start, and the first address that is not open.
pub fn reached(sheet: &[u8], purpose: Purpose, start: u32) -> Run
    ensures { result ≡ run_from purpose sheet.now start }
{
    let mut lies = None;
    let mut end = start;
    for k in 0..rows::area_count(sheet) {
        let area = rows::area_row(sheet, k);
        if let None = lies {
            if one_row::in_area(start, area) {
                lies = Some(lies_there(area, start));
            }
        }
        end = carried(purpose, area, end);
    }
    Run {
        place: place_in(lies),
        end,
    }
}
