// A sheet with its header at hand, for the walks over its rows.
ghost use Rattle.std.specs.Prelude.{◌≡◌};
ghost use Rattle.sheet_rules.specs.Rows.{header_of};

use sheet_rules::Header;

// The header is the sheet's own: it is read once, and the walks find it here.
#[derive(Clone, Copy)]
pub(crate) struct Headed<'a> {
    pub(crate) sheet: &'a [u8],
    pub(crate) header: Header,
    ghost read: { header ≡ header_of sheet.now },
}
