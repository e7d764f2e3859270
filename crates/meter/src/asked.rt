// What the stages of judgement hand on: a frame, its parts, and what it is judged by.
ghost use Rattle.meter.specs.Stages.{Known};

use frame::Parts;
use sheet::SoundSheet;

// A frame that is for the bank's station and of a function that the sheet allows, with its parts and with all that it is judged by: so much step 4 and
// those behind it know.
#[derive(Clone, Copy)]
pub(crate) struct Asked<'a> {
    pub sheet: SoundSheet<'a>,
    pub bank: &'a [u8],
    pub ring: &'a [u8],
    pub frame: &'a [u8],
    pub parts: Parts,
    pub ghost known: { Known sheet.bytes.now frame.now parts },
}
