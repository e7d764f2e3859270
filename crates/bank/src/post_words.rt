// The stores of posted words.
ghost use Rattle.std.specs.Prelude.{◌≡◌, ◌+◌, ◌/◌, ◌≤◌, length};
ghost use Rattle.bank_rules.specs.Stores.{stored};
ghost use Rattle.bank_rules.specs.Bank.{post_stores};

// Stores each posted word at the place of its address.
pub(crate) fn store_posted(sheet: &[u8], bank: &mut [u8], address: u32, bytes: &[u8])
    requires { address + length bytes.now / 2 ≤ 65536 }
    ensures { bank.new ≡ stored bank.old (post_stores sheet.now address bytes.now) }
{
    for k in 0..bytes.len() / 2 {
        let place = lookup::place_in(lookup::lies_at(sheet, address + k as u32));
        words::store_word(bank, 2 * (place as usize), words::word_at(bytes, 2 * k));
    }
}
