// The header of a sheet, read and checked, and handed on only where it breaks no rule: rules S0 to S12. Then what it says of 05.
#![tactic(auto)]

ghost use Rattle.std.specs.Prelude.{◌≡◌, ◌||◌, ◌/◌, ◌%◌, eqb};
ghost use Rattle.lists.specs.Lists.{between};
ghost use Rattle.sheet_rules.specs.Rows.{header_of};
ghost use Rattle.sheet_rules.specs.Rules.{header_sound, bit_of05};
ghost use Rattle.header.specs.Checked.{checked_header};

use sheet_rules::Header;

// Whether a number lies between two others, or is one of them.
// Not `(low..=high).contains(&n)`: the theorem door_machine has the code of each call, and the kit shows none of std's `contains`.
fn between(low: u16, high: u16, n: u16) -> bool
    ensures { result ≡ between low high n }
{
    low <= n && n <= high
}

// The header of a sheet, where it breaks no rule: S0 to S12.
pub fn check(sheet: &[u8]) -> Option<Header>
    ensures { result ≡ checked_header sheet.now }
{
    let header = rows::header(sheet);
    let areas = header.areas as u32;
    let items = header.items as u32;
    let record_areas = header.record_areas as u32;
    let sound = between(1, 2, header.version)
        && between(1, 8, header.areas)
        && header.area_offset == 12
        && between(2, 64, header.items)
        && header.item_offset as u32 == 12 + 4 * areas
        && between(2, 256, header.bank)
        && between(0, 15, header.functions)
        && header.words as u32 == 12 + 4 * areas + 6 * items + 3 * record_areas
        && between(0, 1, header.record_areas)
        && sheet.len() == 2 * (header.words as usize);
    if sound { Some(header) } else { None }
}

// Rule S13: whether 05 is in the sum.
pub fn sums_05(functions: u16) -> bool
    ensures { result ≡ eqb (functions / bit_of05 % 2) 1 }
{
    functions / 2 % 2 == 1
}

// Rule S27: the clear address, where 05 is not allowed.
pub fn clear_sound_without_05(allowed: bool, clear: u16) -> bool
    ensures { result ≡ (allowed || eqb clear 0) }
{
    allowed || clear == 0
}
