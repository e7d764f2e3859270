// The order of judgement for a frame, stage by stage: each answers where the frame stops, or hands it on to the next.
ghost use Rattle.std.specs.Prelude.{◌≡◌, true};
ghost use Rattle.meter.specs.Stages.{addressed_to, wrong_length_in, judged_from, judged_record, judged_shut, AsksRead};
ghost use Rattle.meter.specs.Asked.{given_to};
ghost use Rattle.sheet_rules.specs.Rules.{in_records};
ghost use Rattle.bank_rules.specs.Calls.{lent_with};
ghost use Rattle.frame.specs.Frame.{clears, is_write, many_of};
ghost use Rattle.meter_rules.specs.Steps.{code_allowed, judged_frame};

use crate::asked::Asked;
use crate::values;
use crate::write::Write;
use frame::Parts;
use meter_rules::Judged;
use sheet::SoundSheet;
use sheet_rules::{Purpose, RecordArea};

// The bits that allow the functions 03, 05, 06 and 10, of whose sum the sheet has one word.
const BIT_OF_03: u16 = 1;

const BIT_OF_05: u16 = 2;

const BIT_OF_06: u16 = 4;

const BIT_OF_10: u16 = 8;

// Step 2: the station byte is the bank's address. Hands the parts on, where the frame is for the bank's station.
fn for_station(sheet: &[u8], bank: &[u8], parts: Parts) -> Option<Parts>
    ensures { result ≡ addressed_to sheet.now bank.now parts }
{
    let address = words::word_at(bank, 2 * (rows::address_place(sheet) as usize));
    if parts.station as u16 != address {
        return None;
    }
    Some(parts)
}

// Whether a function is one of the four and the sheet allows it.
fn function_allowed(sheet: &[u8], function: u8) -> bool
    ensures { result ≡ code_allowed sheet.now function }
{
    let sum = rows::functions(sheet);
    match function {
        frame::READS => sum / BIT_OF_03 % 2 == 1,
        frame::CLEARS => sum / BIT_OF_05 % 2 == 1,
        frame::WRITES_ONE => sum / BIT_OF_06 % 2 == 1,
        frame::WRITES_MANY => sum / BIT_OF_10 % 2 == 1,
        _ => false,
    }
}

// Steps 1 to 3: a frame that does not pass, or is for another station, gets silence; a function that is not allowed, error 01.
pub(crate) fn judged_frame(sheet: SoundSheet<'_>, bank: &[u8], ring: &[u8], frame: &[u8]) -> Judged
    ensures { result ≡ judged_frame (lent_with sheet.entry.bytes.now bank.now ring.now) frame.now }
{
    let Some(passed) = frame::taken_apart(frame) else {
        return Judged::FailsCheck;
    };
    let Some(parts) = for_station(sheet.bytes, bank, passed) else {
        return Judged::OtherStation;
    };
    if !function_allowed(sheet.bytes, parts.function) {
        return Judged::FunctionNotAllowed;
    }
    let asked = Asked {
        sheet,
        bank,
        ring,
        frame,
        parts,
    };
    asked.judged_length()
}

// Rules J40 and J41: a 10 has nine bytes and those that its byte count says, any other function eight.
fn has_wrong_length(parts: Parts) -> bool
    ensures { result ≡ wrong_length_in parts }
{
    if parts.function != frame::WRITES_MANY {
        return parts.length != 8;
    }
    if parts.length < 9 {
        return true;
    }
    parts.length != 9 + parts.bytes as usize
}

impl Asked<'_> {
    // Step 4.
    fn judged_length(&self) -> Judged
        ensures { result ≡ judged_from 3 (given_to self.now) self.now.frame.now }
    {
        if has_wrong_length(self.parts) {
            return Judged::WrongLength;
        }
        self.judged_count()
    }

    // Step 5: a count is not 0, and the byte count of 10 is twice its count.
    fn judged_count(&self) -> Judged
        ensures { result ≡ judged_from 4 (given_to self.now) self.now.frame.now }
    {
        match self.parts.function {
            frame::READS => {
                if self.parts.second == 0 {
                    return Judged::WrongCount;
                }
                self.judged_read()
            }
            frame::CLEARS => self.judged_clear(),
            frame::WRITES_ONE => self.judged_write(),
            _ => {
                if self.parts.second == 0 {
                    return Judged::WrongCount;
                }
                if self.parts.bytes as u32 != 2 * (self.parts.second as u32) {
                    return Judged::WrongCount;
                }
                self.judged_write()
            }
        }
    }

    // Steps 5 and 6 for a read of registers: at most 47, and every address in an area. A record lies in no area: so whether it is one of records is
    // asked only where it is no good one of registers.
    fn judged_read(&self) -> Judged
        requires { AsksRead self.now.parts }
        ensures { result ≡ judged_from 4 (given_to self.now) self.now.frame.now }
    {
        if self.parts.second <= frame::MOST_READ {
            let run = lookup::reached(self.sheet.bytes, Purpose::Read, self.parts.start as u32);
            if self.parts.start as u32 + self.parts.second as u32 <= run.end {
                return Judged::GoodRead {
                    first: run.place,
                    many: self.parts.second as u32,
                };
            }
        }
        judged_shut(
            self.sheet.bytes,
            self.ring,
            self.parts.start,
            self.parts.second,
        )
    }

    // Steps 6 and 7 for a clear: at the clear address, with the value 0.
    fn judged_clear(&self) -> Judged
        requires { self.now.parts.function ≡ clears }
        ensures { result ≡ judged_from 5 (given_to self.now) self.now.frame.now }
    {
        if self.parts.start != rows::clear_address(self.sheet.bytes) {
            return Judged::WrongAddress;
        }
        if self.parts.second != 0 {
            return Judged::WrongValue;
        }
        Judged::GoodClear
    }

    // Steps 6 and 7 for a write: every address in an access 2 or access 3 area, and no bad item.
    fn judged_write(&self) -> Judged
        requires { is_write self.now.frame.now ≡ true }
        ensures { result ≡ judged_from 5 (given_to self.now) self.now.frame.now }
    {
        let many = many_of(self.parts);
        let run = lookup::reached(self.sheet.bytes, Purpose::Write, self.parts.start as u32);
        if run.end < self.parts.start as u32 + many as u32 {
            return Judged::WrongAddress;
        }
        let write = Write {
            bank: self.bank,
            frame: self.frame,
            values: values::values_at(self.frame),
            first: run.place,
            many: many as u32,
        };
        match write.stop(self.sheet) {
            Some(stop) => Judged::BadItem {
                first: write.first,
                stop: stop.place,
                side: stop.side,
            },
            None => Judged::GoodWrite {
                first: write.first,
                many: write.many,
            },
        }
    }
}

// Steps 5 and 6 for a read that is no good one of registers: from a record's address on it is of one record, and else it gets error 02.
fn judged_shut(sheet: &[u8], ring: &[u8], start: u16, many: u16) -> Judged
    ensures { result ≡ judged_shut sheet.now ring.now start many }
{
    if !rows::has_records(sheet) {
        return Judged::WrongAddress;
    }
    let records = rows::record_area(sheet);
    if !one_row::in_records(start as u32, records) {
        return Judged::WrongAddress;
    }
    if many != 1 {
        return Judged::WrongCount;
    }
    judged_record(ring, start, records)
}

// Step 6 for a read of a record: it is one of those that are stored. The newest is at its place, and each older one a place in front of the
// one behind it, round from place 0 to the last.
fn judged_record(ring: &[u8], start: u16, records: RecordArea) -> Judged
    requires { in_records start records ≡ true }
    ensures { result ≡ judged_record records ring.now start }
{
    let newer = start as u32 - records.first as u32;
    let stored = words::word_at(ring, 2) as u32;
    if stored <= newer {
        return Judged::WrongAddress;
    }
    let all = records.records as u32;
    let newest = words::word_at(ring, 0) as u32;
    let place = (newest + all - newer) % all;
    let words = records.words as u32;
    Judged::GoodRecord {
        first: 2 + place * words,
        many: words,
    }
}

// How many registers a write is for: one for 06, else its count.
fn many_of(parts: Parts) -> u16
    ensures { result ≡ many_of parts.function parts.second }
{
    if parts.function == frame::WRITES_ONE {
        1
    } else {
        parts.second
    }
}
