// Why a meter gives silence or an error to a frame: the frame is judged as for an answer, and where it stops is told in the words of W1 and W5.
#![tactic(auto)]

ghost use Rattle.std.specs.Prelude.{◌≡◌};
ghost use Rattle.bank_rules.specs.Calls.{lent_with};
ghost use Rattle.why_rules.specs.Reasons.{explanation};
ghost use Rattle.why.specs.Told.{unpassed, wrongly_addressed, reason_by};

use meter_rules::Judged;
use refusals::Refusal;
use sheet_rules::Purpose;
use why_rules::Reason;

// Which part of step 1 a frame that does not pass fails.
fn unpassed(frame: &[u8]) -> Reason
    ensures { result ≡ unpassed frame.now }
{
    if frame.len() < check_value::SHORTEST {
        return Reason::TooShort;
    }
    if check_value::LONGEST < frame.len() {
        return Reason::TooLong;
    }
    Reason::Check
}

// Which part of step 6 a frame fails: a read's count, or an address, and then which one. A record lies in no area, so a run that begins at one
// ends there.
fn wrongly_addressed(sheet: &[u8], frame: &[u8]) -> Reason
    ensures { result ≡ wrongly_addressed sheet.now frame.now }
{
    let start = words::word_at(frame, 2) as u32;
    match words::byte_at(frame, 1) {
        frame::CLEARS => Reason::Address { address: start },
        frame::READS => {
            if frame::MOST_READ < words::word_at(frame, 4) {
                return Reason::Count;
            }
            let run = lookup::reached(sheet, Purpose::Read, start);
            Reason::Address { address: run.end }
        }
        _ => {
            let run = lookup::reached(sheet, Purpose::Write, start);
            Reason::Address { address: run.end }
        }
    }
}

// The reason by where a frame stops. The place of an item is a word of the sheet, so nothing is lost of it.
fn reason_by(judged: Judged, sheet: &[u8], frame: &[u8]) -> Option<Reason>
    ensures { result ≡ reason_by judged sheet.now frame.now }
{
    match judged {
        Judged::FailsCheck => Some(unpassed(frame)),
        Judged::OtherStation => Some(Reason::Station),
        Judged::FunctionNotAllowed => Some(Reason::Function),
        Judged::WrongLength => Some(Reason::BodyLength),
        Judged::WrongCount => Some(Reason::Count),
        Judged::WrongAddress => Some(wrongly_addressed(sheet, frame)),
        Judged::WrongValue => Some(Reason::ClearValue),
        Judged::BadItem { stop, side, .. } => Some(Reason::Item {
            address: lookup::address_of(sheet, (stop % 0x10000) as u16),
            side,
        }),
        Judged::GoodRead { .. } | Judged::GoodRecord { .. } => None,
        Judged::GoodClear | Judged::GoodWrite { .. } => None,
    }
}

// Why a frame gets silence or an error, with nothing done: the refusals 2, 3, 4 and 8 in this order, then the reason.
// Four slices and no struct: C lends them so.
pub fn why(sheet: &[u8], bank: &[u8], ring: &[u8], frame: &[u8]) -> Result<Option<Reason>, Refusal>
    ensures { result ≡ explanation (lent_with sheet.now bank.now ring.now) frame.now }
{
    // A match and no `?`: the kit shows no code of what `?` calls, which the theorem door_machine would need.
    match meter::judge(sheet, bank, ring, frame) {
        Ok(judged) => Ok(reason_by(judged, sheet, frame)),
        Err(refusal) => Err(refusal),
    }
}
