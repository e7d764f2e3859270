// The two makers' sheets: rules M10 to M27.
#![tactic(auto)]

ghost use Rattle.std.specs.Prelude.{◌≡◌};
ghost use Rattle.makers.specs.Maps.{ux, aswe, aswe40, bore50, bore80};
ghost use Rattle.makers.specs.Sheets.{sheet_of};

mod tables;

// Where the bound that goes by the bore stands in the AS-WE sheet of bores 50 and 80: the lower byte of the high bound of 0109.
const BORE: usize = 195;

// The sheet of UX15/25. Arrays, here and below: `sheet_of` and the C header have their sizes.
pub fn ux() -> [u8; 256]
    ensures { result ≡ sheet_of ux }
{
    tables::UX
}

// The sheet of AS-WE without presets, whose item 0109 ends at a given bound.
fn aswe(bore: u8) -> [u8; 328]
    ensures { result ≡ sheet_of (aswe bore) }
{
    let mut sheet = tables::ASWE;
    sheet[BORE] = bore;
    sheet
}

// The sheet of AS-WE, bore 40, with its presets.
pub fn aswe_40() -> [u8; 396]
    ensures { result ≡ sheet_of aswe40 }
{
    tables::ASWE_40
}

// The sheet of AS-WE, bore 50.
pub fn aswe_50() -> [u8; 328]
    ensures { result ≡ sheet_of (aswe bore50) }
{
    aswe(0x1E)
}

// The sheet of AS-WE, bore 80.
pub fn aswe_80() -> [u8; 328]
    ensures { result ≡ sheet_of (aswe bore80) }
{
    aswe(0x3C)
}
