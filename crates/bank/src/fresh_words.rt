// The stores of a fresh bank.
ghost use Rattle.std.specs.Prelude.{◌≡◌};
ghost use Rattle.sheet_rules.specs.Rows.{items};
ghost use Rattle.bank_rules.specs.Stores.{stored};
ghost use Rattle.bank_rules.specs.Bank.{low_stores, fresh_stores};

use sheet::SoundSheet;

// Stores each item's low bound.
fn store_lows(sheet: SoundSheet<'_>, bank: &mut [u8])
    ensures { bank.new ≡ stored bank.old (low_stores (items sheet.entry.bytes.now)) }
{
    let areas = rows::area_count(sheet.bytes);
    // Not a `for`: by the number of items the reader's test would come on top of the walk's (docs/DECISIONS.md, "Readers of rows stand once"); the three such walks took 283 bytes more.
    let mut k = 0;
    while rows::item_end(areas, k) <= sheet.bytes.len() {
        let item = rows::item_row(sheet.bytes, areas, k);
        bank_steps::store_item(bank, item, item.low);
        k += 1;
    }
}

// Stores all that a fresh bank has: every word 0, then each item's low bound, then address 1 and rate 1.
pub(crate) fn store_fresh(sheet: SoundSheet<'_>, bank: &mut [u8])
    ensures { bank.new ≡ stored bank.old (fresh_stores sheet.entry.bytes.now) }
{
    bank_steps::zero_words(bank, rows::bank_words(sheet.bytes) as u32 + 1);
    store_lows(sheet, bank);
    words::store_word(bank, 2 * (rows::address_place(sheet.bytes) as usize), 1);
    words::store_word(bank, 2 * (rows::rate_place(sheet.bytes) as usize), 1);
}
