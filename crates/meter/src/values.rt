// The values that a write sends, the item that it stops at, and its stores.
ghost use Rattle.std.specs.Prelude.{◌≡◌, map, ℕ, ◌+◌, ◌≤◌, ◌<◌, ◌^◌};
ghost use Rattle.sheet_rules.specs.Rows.{item_count, item_at, items};
ghost use Rattle.lists.specs.Lists.{up_from};
ghost use Rattle.bank_rules.specs.Stores.{stored};
ghost use Rattle.bank_rules.specs.Bank.{value_by};
ghost use Rattle.frame.specs.Frame.{values_at};
ghost use Rattle.meter_rules.specs.Write.{in_run, would_be, touched, stop_in, run_store};
ghost use Rattle.meter.specs.Stages.{side_left};

use crate::write::Write;
use meter_rules::Stop;
use range::Side;
use sheet::SoundSheet;
use sheet_rules::Item;

// Where the values of a write begin in its frame: at the value of 06, or behind the byte count of 10.
pub(crate) fn values_at(frame: &[u8]) -> u8
    ensures { result ≡ values_at frame.now }
{
    if words::byte_at(frame, 1) == frame::WRITES_ONE {
        4
    } else {
        7
    }
}

// An index with every item in front of it wholly in front of a place: items ascend, so halving finds the last such index. By hand, since the items lie
// as bytes in what is lent: there is no slice of them that `partition_point` could search.
fn first_near(sheet: SoundSheet<'_>, place: u32) -> u16
    ensures { (result ≤ item_count sheet.entry.bytes.now) × ((k : ℕ) → k < result → (item_at sheet.entry.bytes.now k).place + 1 < place) }
{
    let areas = rows::area_count(sheet.bytes);
    let mut near: u16 = 0;
    let mut past = rows::item_count(sheet.bytes);
    while near < past {
        let middle = near + (past - near) / 2;
        if rows::item_place(sheet.bytes, areas, middle) as u32 + 1 < place {
            near = middle + 1;
        } else {
            past = middle;
        }
    }
    near
}

impl Write<'_> {
    // Whether a place is in the run of the write.
    fn in_run(self, place: u32) -> bool
        ensures { result ≡ in_run self.entry.first self.entry.many place }
    {
        // Not `contains`: the theorem door_machine has the code of each call, and the kit shows none of std's `contains`.
        self.first <= place && place - self.first < self.many
    }

    // The word that would be at a place: the word sent if the place is in the run, else the bank's.
    fn would_be(self, place: u32) -> u16
        ensures { result ≡ would_be self.entry.first self.entry.many self.entry.bank.now self.entry.frame.now place }
    {
        if !self.in_run(place) {
            return words::word_at(self.bank, 2 * (place as usize));
        }
        words::word_at(
            self.frame,
            self.values as usize + 2 * ((place - self.first) as usize),
        )
    }

    // The value that an item would have: a half of a pair that is not sent is the bank's.
    fn value_would_be(self, item: Item) -> u32
        ensures { result ≡ value_by (would_be self.entry.first self.entry.many self.entry.bank.now self.entry.frame.now) item }
    {
        let place = item.place as u32;
        let word = self.would_be(place) as u32;
        if item.kind != 2 {
            return word;
        }
        word * 65536 + self.would_be(place + 1) as u32
    }

    // Whether one of an item's places is in the run.
    fn touches(self, item: Item) -> bool
        ensures { result ≡ touched self.entry.first self.entry.many item }
    {
        let place = item.place as u32;
        if self.in_run(place) {
            return true;
        }
        item.kind == 2 && self.in_run(place + 1)
    }

    // The side of its range at which the write would leave an item. One that it does not touch stays as it is, which in a sound bank is in range.
    fn side_left(self, item: Item) -> Side
        ensures { result ≡ side_left self.entry.first self.entry.many self.entry.bank.now self.entry.frame.now item }
    {
        if !self.touches(item) {
            return Side::InRange;
        }
        range::side_of(item.kind, item.low, item.high, self.value_would_be(item))
    }

    // Where the write stops: at the first bad item, if there is one. Items ascend, so those that end in front of the run, or begin behind it, are passed over.
    pub(crate) fn stop(self, sheet: SoundSheet<'_>) -> Option<Stop>
        requires { self.first + self.many < 2 ^ 32 }
        ensures { result ≡ stop_in self.entry.first self.entry.many self.entry.bank.now self.entry.frame.now (items sheet.entry.bytes.now) }
    {
        let areas = rows::area_count(sheet.bytes);
        let end = self.first + self.many;
        // Not a `for`: by the number of items the reader's test would come on top of the walk's (docs/DECISIONS.md, "Readers of rows stand once"); the three such walks took 283 bytes more.
        let mut k = first_near(sheet, self.first);
        while rows::item_end(areas, k) <= sheet.bytes.len() {
            let item = rows::item_row(sheet.bytes, areas, k);
            if end <= item.place as u32 {
                return None;
            }
            let side = self.side_left(item);
            if !range::inside(side) {
                return Some(Stop {
                    place: item.place as u32,
                    side,
                });
            }
            k += 1;
        }
        None
    }
}

// Stores so many of the words sent, from a first place on. Apart from `store_record` of ring, its like: the one body is
// three lines, and each of the two promises would still need its own proof by its own stores.
pub(crate) fn store_run(bank: &mut [u8], frame: &[u8], first: u32, count: u32)
    ensures { bank.new ≡ stored bank.old (map (run_store frame.now first) (up_from 0 count)) }
{
    let values = values_at(frame) as usize;
    for k in 0..count {
        let word = words::word_at(frame, values + 2 * (k as usize));
        words::store_word(bank, 2 * (first as usize + k as usize), word);
    }
}
