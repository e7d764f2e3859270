// The ring: the lent bytes that hold a meter's records, its check, and the call by which the firmware adds a record.
#![tactic(auto)]

ghost use Rattle.std.specs.Prelude.{◌≡◌, true};
ghost use Rattle.sheet_rules.specs.Rows.{record_area};
ghost use Rattle.ring_rules.specs.Ring.{newest_place, stored_count, ring_bytes, ring_sound, next_place, next_count, added};
ghost use Rattle.ring_rules.specs.Calls.{ring_fits, ring_answer, add_outcome, ring_outcome};

use refusals::Refusal;
use sheet_rules::RecordArea;

mod record_words;

// A ring, and the record area that it is for.
#[derive(Clone, Copy)]
struct Ring<'a> {
    records: RecordArea,
    bytes: &'a [u8],
}

impl Ring<'_> {
    // At which place the newest record stands, and how many are stored: rule T1.
    fn newest(self) -> u16
        ensures { result ≡ newest_place self.entry.bytes.now }
    {
        words::word_at(self.bytes, 0)
    }

    fn stored(self) -> u16
        ensures { result ≡ stored_count self.entry.bytes.now }
    {
        words::word_at(self.bytes, 2)
    }

    // How many bytes it has: rule T2.
    fn size(self) -> usize
        ensures { result ≡ ring_bytes self.entry.records }
    {
        2 * (2 + (self.records.records as usize) * (self.records.words as usize))
    }

    // Rules T10 to T13.
    #[tactic(auto, unfolding(ring_rules::specs::Ring::ring_sound))]
    fn sound(self) -> bool
        ensures { result ≡ ring_sound self.entry.records self.entry.bytes.now }
    {
        let most = self.records.records;
        self.bytes.len() == self.size()
            && self.newest() < most
            && self.stored() <= most
            && (self.stored() != 0 || self.newest() == 0)
    }

    // The place of the next record: rule T30.
    #[tactic(auto, using(ring_rules::proofs::Places::behind_newest, ring_rules::proofs::Places::round_to_first, ring_rules::proofs::Sound::ring_told_lem))]
    fn next_place(self) -> u16
        requires { ring_sound self.records self.bytes.now ≡ true }
        ensures { result ≡ next_place self.entry.records self.entry.bytes.now }
    {
        if self.stored() == 0 {
            return 0;
        }
        let next = self.newest() + 1;
        if next < self.records.records { next } else { 0 }
    }

    // How many records are stored with the next one: rule T31. Not `min`: the theorem door_machine has the code of each call, and the kit shows none of std's `min`.
    fn next_count(self) -> u16
        ensures { result ≡ next_count self.entry.records self.entry.bytes.now }
    {
        let count = self.stored();
        if count < self.records.records {
            count + 1
        } else {
            self.records.records
        }
    }
}

// Whether a ring is sound: rules T10 to T13.
pub fn sound(records: RecordArea, ring: &[u8]) -> bool
    ensures { result ≡ ring_sound records ring.now }
{
    let ring = Ring {
        records,
        bytes: ring,
    };
    ring.sound()
}

// Whether a ring is sound for a sheet's record area. Apart from `fits`, so that a sheet without one costs a call one test.
fn sound_in(sheet: &[u8], ring: &[u8]) -> bool
    ensures { result ≡ ring_sound (record_area sheet.now) ring.now }
{
    sound(rows::record_area(sheet), ring)
}

// Whether a ring goes with a sheet: rules T10 to T14.
#[tactic(auto, unfolding(ring_rules::specs::Calls::ring_fits))]
pub fn fits(sheet: &[u8], ring: &[u8]) -> bool
    ensures { result ≡ ring_fits sheet.now ring.now }
{
    if rows::has_records(sheet) {
        sound_in(sheet, ring)
    } else {
        // Not `is_empty`: the theorem door_machine has the code of each call, and the kit shows none of std's `is_empty`.
        ring.len() == 0
    }
}

// The refusals of every call with a ring: a sheet that breaks a rule, and a ring that does not go with it.
#[tactic(auto, unfolding(ring_rules::specs::Calls::ring_answer, lists::specs::Cases::first_case))]
pub fn check(sheet: &[u8], ring: &[u8]) -> Result<(), Refusal>
    ensures { result ≡ ring_answer sheet.now ring.now }
{
    // A match and no `?`: the kit shows no code of what `?` calls, which the theorem door_machine would need.
    match sheet::check(sheet) {
        Ok(()) => {}
        Err(refusal) => return Err(refusal),
    }
    if !fits(sheet, ring) {
        return Err(Refusal::BadRing);
    }
    Ok(())
}

// Stores a record at the next place, then the two words: rules T30 to T32.
#[tactic(auto, using(bank_rules::proofs::Stores::stored_append), unfolding(ring_rules::specs::Ring::added, ring_rules::specs::Ring::add_stores, bank_rules::specs::Stores::stored))]
fn store_added(records: RecordArea, ring: &mut [u8], bytes: &[u8])
    requires { ring_sound records ring.old ≡ true }
    ensures { ring.new ≡ added records ring.old bytes.now }
{
    let before = Ring {
        records,
        bytes: ring,
    };
    let place = before.next_place();
    let count = before.next_count();
    record_words::store_record(records, place, ring, bytes);
    words::store_word(ring, 0, place);
    words::store_word(ring, 2, count);
}

// Adds a record: rules T30 to T33.
#[tactic(auto, unfolding(ring_rules::specs::Calls::add_outcome, ring_rules::specs::Calls::add_answer, ring_rules::specs::Calls::ring_fits, ring_rules::specs::Ring::added, bank_rules::specs::Stores::stored, lists::specs::Cases::first_case))]
pub fn add(sheet: &[u8], ring: &mut [u8], bytes: &[u8]) -> Result<(), Refusal>
    ensures { ring_outcome result ring.new ≡ add_outcome sheet.now ring.old bytes.now }
{
    // A match and no `?`: the kit shows no code of what `?` calls, which the theorem door_machine would need.
    match sheet::check(sheet) {
        Ok(()) => {}
        Err(refusal) => return Err(refusal),
    }
    if !rows::has_records(sheet) {
        return Err(Refusal::BrokenSheet);
    }
    if !sound_in(sheet, ring) {
        return Err(Refusal::BadRing);
    }
    let records = rows::record_area(sheet);
    if bytes.len() != 2 * (records.words as usize) {
        return Err(Refusal::BadInput);
    }
    store_added(records, ring, bytes);
    Ok(())
}
