// The bank: the lent bytes that hold a meter's settings and readings, and the calls by which the firmware itself changes them.
#![tactic(auto)]

ghost use Rattle.std.specs.Prelude.{◌≡◌};
ghost use Rattle.bank_rules.specs.Bank.{bank_sound};
ghost use Rattle.bank_rules.specs.Calls.{lent, check_answer, fresh_outcome, post_outcome, mark_outcome, bank_outcome};

use refusals::Refusal;
use sheet::SoundSheet;

mod fresh_words;
mod post_words;

// Whether a bank is sound: rules B10 to B12. Sheet and bank stay two slices, here and below: C lends them so, and most calls write the bank.
fn sound(sheet: SoundSheet<'_>, bank: &[u8]) -> bool
    ensures { result ≡ bank_sound sheet.entry.bytes.now bank.now }
{
    let areas = rows::area_count(sheet.bytes);
    // Not a `for`: by the number of items the reader's test would come on top of the walk's (docs/DECISIONS.md, "Readers of rows stand once"); the three such walks took 283 bytes more.
    let mut k = 0;
    while rows::item_end(areas, k) <= sheet.bytes.len() {
        let item = rows::item_row(sheet.bytes, areas, k);
        let value = bank_steps::value_in(bank, item);
        if !range::inside(range::side_of(item.kind, item.low, item.high, value)) {
            return false;
        }
        k += 1;
    }
    words::word_at(bank, 2 * (rows::bank_words(sheet.bytes) as usize)) <= 1
}

// The refusals that posting, setting the mark and answering share: those of every call on a bank, and a bank that is not sound.
pub fn check(sheet: &[u8], bank: &[u8]) -> Result<(), Refusal>
    ensures { result ≡ check_answer (lent sheet.now bank.now) }
{
    // A match and no `?`: the kit shows no code of what `?` calls, which the theorem door_machine would need.
    match bank_steps::check_size(sheet, bank) {
        Ok(()) => {}
        Err(refusal) => return Err(refusal),
    }
    if !sound(SoundSheet { bytes: sheet }, bank) {
        return Err(Refusal::UnsoundBank);
    }
    Ok(())
}

// Makes a bank fresh.
pub fn fresh(sheet: &[u8], bank: &mut [u8]) -> Result<(), Refusal>
    ensures { bank_outcome result bank.new ≡ fresh_outcome (lent sheet.now bank.old) }
{
    // A match and no `?`: the kit shows no code of what `?` calls, which the theorem door_machine would need.
    match bank_steps::check_size(sheet, bank) {
        Ok(()) => {}
        Err(refusal) => return Err(refusal),
    }
    fresh_words::store_fresh(SoundSheet { bytes: sheet }, bank);
    Ok(())
}

// Posts words: rules B30 to B32.
pub fn post(sheet: &[u8], bank: &mut [u8], address: u32, bytes: &[u8]) -> Result<(), Refusal>
    ensures { bank_outcome result bank.new ≡ post_outcome (lent sheet.now bank.old) address bytes.now }
{
    // A match and no `?`: the kit shows no code of what `?` calls, which the theorem door_machine would need.
    match check(sheet, bank) {
        Ok(()) => {}
        Err(refusal) => return Err(refusal),
    }
    if bank_steps::empty_or_odd(bytes) {
        return Err(Refusal::BadInput);
    }
    if !bank_steps::all_read_only(sheet, address, bytes.len() / 2) {
        return Err(Refusal::NotReadOnly);
    }
    post_words::store_posted(sheet, bank, address, bytes);
    Ok(())
}

// Sets the alarm mark: rules B40 and B41.
pub fn set_mark(sheet: &[u8], bank: &mut [u8], mark: u32) -> Result<(), Refusal>
    ensures { bank_outcome result bank.new ≡ mark_outcome (lent sheet.now bank.old) mark }
{
    // A match and no `?`: the kit shows no code of what `?` calls, which the theorem door_machine would need.
    match check(sheet, bank) {
        Ok(()) => {}
        Err(refusal) => return Err(refusal),
    }
    if 1 < mark {
        return Err(Refusal::BadInput);
    }
    words::store_word(
        bank,
        2 * (rows::bank_words(sheet) as usize),
        (mark % 65536) as u16,
    );
    Ok(())
}
