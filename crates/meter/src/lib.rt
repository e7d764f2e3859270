// The answer of a meter to one frame: a frame is judged, and what the judgement says is acted on.
#![tactic(auto)]

ghost use Rattle.std.specs.Prelude.{◌≡◌};
ghost use Rattle.bank_rules.specs.Calls.{lent_with};
ghost use Rattle.meter_rules.specs.Answer.{outcome, answer_outcome};
ghost use Rattle.meter_rules.specs.Judgement.{lent_answer, judgement};

mod asked;
mod replies;
mod stages;
mod values;
mod write;

use meter_rules::{Answered, Judged};
use refusals::Refusal;
use sheet::SoundSheet;

// The refusals of every call with a frame, 2, 3, 4 and 8 in this order: those of the bank's check, and a ring that does not go with the sheet.
fn check(sheet: &[u8], bank: &[u8], ring: &[u8]) -> Result<(), Refusal>
    ensures { result ≡ lent_answer (lent_with sheet.now bank.now ring.now) }
{
    // A match and no `?`: the kit shows no code of what `?` calls, which the theorem door_machine would need.
    match bank::check(sheet, bank) {
        Ok(()) => {}
        Err(refusal) => return Err(refusal),
    }
    if !ring::fits(sheet, ring) {
        return Err(Refusal::BadRing);
    }
    Ok(())
}

// Judges one frame and does nothing: the refusals 2, 3, 4 and 8 in this order, then where the frame stops. Four slices and no struct, here and below: C lends
// them so, and `answer` writes the bank.
pub fn judge(sheet: &[u8], bank: &[u8], ring: &[u8], frame: &[u8]) -> Result<Judged, Refusal>
    ensures { result ≡ judgement (lent_with sheet.now bank.now ring.now) frame.now }
{
    // A match and no `?`: the kit shows no code of what `?` calls, which the theorem door_machine would need.
    match check(sheet, bank, ring) {
        Ok(()) => {}
        Err(refusal) => return Err(refusal),
    }
    let sheet = SoundSheet { bytes: sheet };
    Ok(stages::judged_frame(sheet, bank, ring, frame))
}

// Answers one frame: the refusals 2, 3, 4, 8 and 5 in this order, then silence or a reply.
pub fn answer(
    sheet: &[u8],
    bank: &mut [u8],
    ring: &[u8],
    frame: &[u8],
    buffer: &mut [u8],
) -> Result<Answered, Refusal>
    ensures { outcome result bank.new buffer.new ≡ answer_outcome (lent_with sheet.now bank.old ring.now) frame.now buffer.old }
{
    // A match and no `?`: the kit shows no code of what `?` calls, which the theorem door_machine would need.
    match check(sheet, bank, ring) {
        Ok(()) => {}
        Err(refusal) => return Err(refusal),
    }
    if buffer.len() < frame::LEAST_BUFFER {
        return Err(Refusal::SmallBuffer);
    }
    let kept = SoundSheet { bytes: sheet };
    let judged = stages::judged_frame(kept, bank, ring, frame);
    Ok(replies::acted(judged, sheet, bank, ring, frame, buffer))
}
