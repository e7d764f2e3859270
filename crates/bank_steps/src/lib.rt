// The steps of the calls on a bank, each for any bytes: what every call refuses, an item's value and its stores, zeros, and what is posted
// and where to.
#![tactic(auto)]

ghost use Rattle.std.specs.Prelude.{◌≡◌, map};
ghost use Rattle.lists.specs.Lists.{up_from};
ghost use Rattle.bank_rules.specs.Stores.{word_of, stored};
ghost use Rattle.bank_rules.specs.Bank.{value_by, zero_at, item_stores, empty_or_odd, is_read_only, all_read_only};
ghost use Rattle.bank_rules.specs.Calls.{lent, fresh_answer};

use refusals::Refusal;
use sheet_rules::{Item, Lies};

// The refusals that all calls on a bank share: a sheet that breaks a rule, and a bank that has not 2B + 2 bytes.
pub fn check_size(sheet: &[u8], bank: &[u8]) -> Result<(), Refusal>
    ensures { result ≡ fresh_answer (lent sheet.now bank.now) }
{
    // A match and no `?`: the kit shows no code of what `?` calls, which the theorem door_machine would need.
    match sheet::check(sheet) {
        Ok(()) => {}
        Err(refusal) => return Err(refusal),
    }
    if bank.len() != 2 * (rows::bank_words(sheet) as usize) + 2 {
        return Err(Refusal::MisfittingBank);
    }
    Ok(())
}

// The value of an item: its word, or for a pair both, upper word first. Words are joined and taken apart by hand, here and below, as in `words`. Apart from
// `value_would_be` of meter, whose words are not all the bank's.
pub fn value_in(bank: &[u8], item: Item) -> u32
    ensures { result ≡ value_by (word_of bank.now) item }
{
    let at = 2 * (item.place as usize);
    let word = words::word_at(bank, at) as u32;
    if item.kind != 2 {
        return word;
    }
    word * 65536 + words::word_at(bank, at + 2) as u32
}

// Stores a value as an item: its word, or for a pair both words, upper word first.
pub fn store_item(bank: &mut [u8], item: Item, value: u32)
    ensures { bank.new ≡ stored bank.old (item_stores item value) }
{
    let at = 2 * (item.place as usize);
    if item.kind != 2 {
        words::store_word(bank, at, (value % 65536) as u16);
        return;
    }
    words::store_word(bank, at, (value / 65536) as u16);
    words::store_word(bank, at + 2, (value % 65536) as u16);
}

// Stores 0 at the first so many places.
pub fn zero_words(bank: &mut [u8], count: u32)
    ensures { bank.new ≡ stored bank.old (map zero_at (up_from 0 count)) }
{
    for place in 0..count {
        words::store_word(bank, 2 * (place as usize), 0);
    }
}

// Rule N7, of posted bytes: there are none, or half a word is left over. Not `is_empty`: the theorem door_machine has the code of each call, and the kit shows none of std's `is_empty`.
pub fn empty_or_odd(bytes: &[u8]) -> bool
    ensures { result ≡ empty_or_odd bytes.now }
{
    bytes.len() == 0 || bytes.len() % 2 == 1
}

// Whether what lies somewhere is in an access 1 area.
fn is_read_only(lies: Option<Lies>) -> bool
    ensures { result ≡ is_read_only lies }
{
    match lies {
        Some(lies) => lies.access == 1,
        None => false,
    }
}

// Whether each of so many addresses from a first one on lies in an access 1 area. Not `all`: the theorem door_machine has the code of each call, and the kit shows none of std's `all`.
pub fn all_read_only(sheet: &[u8], address: u32, count: usize) -> bool
    ensures { result ≡ all_read_only sheet.now (up_from address count) }
{
    for k in 0..count {
        if !is_read_only(lookup::lies_at(sheet, address + k as u32)) {
            return false;
        }
    }
    true
}
