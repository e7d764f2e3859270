// The rules of the item rows, with those of the address and the rate, in one walk over them.
ghost use Rattle.std.specs.Prelude.{◌≡◌, true, cond, ◌&&◌, ◌+◌, ◌<◌, leb, eqb};
ghost use Rattle.sheet_rules.specs.Rules.{covered_by_items, length_of, access_rule, first_last_rule, areas_sound, items_sound, settings_sound};
ghost use Rattle.sheet.specs.Cover.{UnderWay, Opened, size_of};

use crate::headed::Headed;
use sheet_rules::{Area, Item};

// How far the places of the access 2 and access 3 areas are covered: `next` is the next place, `end` ends the places of its area, and `area` is
// the index of the area behind that one.
#[derive(Clone, Copy)]
struct Cover {
    next: u32,
    end: u32,
    area: u16,
}

// How many of an area's places are covered by items: all of an access 2 or access 3 area's, and none of another's. Apart from `length_of` of one_row, which
// tests what is known here. Its access is one
// of the three, and its first address not above its last.
fn covered_length(area: Area) -> u32
    requires area_value { access_rule area ≡ true }
    requires area_value_2 { first_last_rule area ≡ true }
    ensures { result ≡ cond (covered_by_items area.access) (length_of area) 0 }
{
    if area.access == 1 {
        return 0;
    }
    area.last as u32 + 1 - area.first as u32
}

// Whether an item stands at the next place and ends within the area of that place.
fn covers(item: Item, cover: Cover) -> bool
    requires { cover.next < 0x20000 }
    ensures { result ≡ (eqb item.place cover.next && leb (cover.next + size_of item) cover.end) }
{
    if item.place as u32 != cover.next {
        return false;
    }
    let size = one_row::size_of(item);
    cover.next + size <= cover.end
}

impl Headed<'_> {
    // The same cover, but at an area that has places left, if there is one. Mostly the area at hand has some: then nothing is walked over.
    fn opened(self, cover: Cover) -> Cover
        requires { UnderWay self.sheet.now cover }
        ensures { Opened self.entry.sheet.now cover result }
    {
        let mut next = cover.next;
        let mut end = cover.end;
        let mut area = cover.area;
        // Not a `for`: the index is part of the cover, at which the walk stops, and from which it goes on at a later item.
        while end <= next && area < self.header.areas {
            let row = rows::area_row(self.sheet, area);
            next = row.place as u32;
            end = next + covered_length(row);
            area += 1;
        }
        Cover { next, end, area }
    }

    // The cover is opened at each item, and once more behind the last one: then no place may be left.
    pub(crate) fn items_and_settings_sound(self) -> bool
        requires { areas_sound self.sheet.now ≡ true }
        ensures { result ≡ (items_sound self.entry.sheet.now && settings_sound self.entry.sheet.now) }
    {
        let address_place = self.header.address;
        let rate_place = self.header.rate;
        if address_place == rate_place {
            return false;
        }
        let mut cover = Cover {
            next: 0,
            end: 0,
            area: 0,
        };
        let mut address = false;
        let mut rate = false;
        // Not a `for`: a second call of `opened`, behind it, makes the check 346 bytes larger and takes 5 in 100 more instructions.
        let mut k: u16 = 0;
        loop {
            let at = self.opened(cover);
            if self.header.items <= k {
                if at.next < at.end {
                    return false;
                }
                return address && rate;
            }
            let item = rows::item_row(self.sheet, self.header.areas, k);
            if !one_row::item_sound(item) {
                return false;
            }
            if !covers(item, at) {
                return false;
            }
            cover = Cover {
                next: at.next + one_row::size_of(item),
                ..at
            };
            address = one_row::address_found(address, item, address_place);
            rate = one_row::rate_found(rate, item, rate_place);
            k += 1;
        }
    }
}
