// The check of a sheet: whether it breaks a rule of 01, or of 02 where that amends it. Any bytes are taken as a sheet.
#![tactic(auto)]

ghost use Rattle.std.specs.Prelude.{◌≡◌, true};
ghost use Rattle.sheet_rules.specs.Rules.{sound, sheet_answer};

mod area_rows;
mod headed;
mod item_rows;
mod record_rows;

use headed::Headed;
use refusals::Refusal;

// A sheet that breaks no rule. Whoever is handed one need not be told, and need not require, that its bytes are sound.
#[derive(Clone, Copy)]
pub struct SoundSheet<'a> {
    pub bytes: &'a [u8],
    pub ghost keeps: { sound bytes.now ≡ true },
}

// Whether a sheet breaks a rule: its header, its areas, its items with the address and the rate, then its record area.
pub fn check(sheet: &[u8]) -> Result<(), Refusal>
    ensures { result ≡ sheet_answer sheet.now }
{
    let Some(header) = header::check(sheet) else {
        return Err(Refusal::BrokenSheet);
    };
    let headed = Headed { sheet, header };
    if headed.areas_sound() && headed.items_and_settings_sound() && headed.records_sound() {
        Ok(())
    } else {
        Err(Refusal::BrokenSheet)
    }
}
