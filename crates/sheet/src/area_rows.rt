// The rules of the area rows, in one walk over them.
ghost use Rattle.std.specs.Prelude.{◌≡◌};
ghost use Rattle.sheet_rules.specs.Rules.{areas_sound};

use crate::headed::Headed;

impl Headed<'_> {
    pub(crate) fn areas_sound(self) -> bool
        ensures { result ≡ areas_sound self.entry.sheet.now }
    {
        let version = self.header.version;
        let clear = self.header.clear;
        let allowed = header::sums_05(self.header.functions);
        if !header::clear_sound_without_05(allowed, clear) {
            return false;
        }
        let mut lowest: u32 = 0;
        let mut places: u32 = 0;
        for k in 0..self.header.areas {
            let area = rows::area_row(self.sheet, k);
            if !one_row::area_sound(area, version, lowest, places) {
                return false;
            }
            if !one_row::clear_outside(allowed, clear, area) {
                return false;
            }
            lowest = area.last as u32 + 1;
            places += one_row::length_of(area);
        }
        places == self.header.bank as u32
    }
}
