// The rules of the record area, where a sheet has one.
ghost use Rattle.std.specs.Prelude.{◌≡◌};
ghost use Rattle.lists.specs.Lists.{each};
ghost use Rattle.sheet_rules.specs.Rows.{areas};
ghost use Rattle.sheet_rules.specs.Rules.{apart_rule, records_sound};

use crate::headed::Headed;
use sheet_rules::RecordArea;

impl Headed<'_> {
    // Rule S84: no area shares an address with the record area.
    fn all_apart(self, records: RecordArea) -> bool
        ensures { result ≡ each (apart_rule records) (areas self.entry.sheet.now) }
    {
        // Not `all`: the theorem door_machine has the code of each call, and the kit shows none of std's `all`.
        for k in 0..self.header.areas {
            if !one_row::apart(records, rows::area_row(self.sheet, k)) {
                return false;
            }
        }
        true
    }

    pub(crate) fn records_sound(self) -> bool
        ensures { result ≡ records_sound self.entry.sheet.now }
    {
        if self.header.record_areas != 1 {
            return true;
        }
        let records = rows::record_row(self.sheet, self.header.areas, self.header.items);
        if !one_row::records_sound(records) {
            return false;
        }
        if !self.all_apart(records) {
            return false;
        }
        if !header::sums_05(self.header.functions) {
            return true;
        }
        !one_row::in_records(self.header.clear as u32, records)
    }
}
