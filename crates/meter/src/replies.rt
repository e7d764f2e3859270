// What becomes of a judged frame: its error code, its reply in the answer buffer, and its stores.
ghost use Rattle.std.specs.Prelude.{◌≡◌, ◌-◌, true, Ok};
ghost use Rattle.bank_rules.specs.Stores.{stored};
ghost use Rattle.bank_rules.specs.Calls.{lent_with};
ghost use Rattle.frame.specs.Reply.{has_room};
ghost use Rattle.meter_rules.specs.Reply.{error_code, reply_to, stores_of};
ghost use Rattle.meter_rules.specs.Answer.{outcome, acted_on};
ghost use Rattle.meter.specs.Acting.{replied};

use crate::values;
use meter_rules::{Answered, Judged};

// The error code of a judgement; 0 where it is no error. No Option: `error_code` of the rules is that number.
fn error_code(judged: Judged) -> u8
    ensures { result ≡ error_code judged }
{
    match judged {
        Judged::FunctionNotAllowed => 1,
        Judged::WrongAddress => 2,
        Judged::WrongCount | Judged::WrongValue | Judged::BadItem { .. } => 3,
        Judged::FailsCheck | Judged::OtherStation | Judged::WrongLength => 0,
        Judged::GoodRead { .. } | Judged::GoodRecord { .. } => 0,
        Judged::GoodClear | Judged::GoodWrite { .. } => 0,
    }
}

// Lays the reply to a judged frame in the buffer, to be sent at a rate: an error by its code, the reply to a good frame, or none. What is lent comes one by
// one, here and below, and in no struct: the bank is lent to be written, and written between judging and replying.
fn lay_reply(
    judged: Judged,
    rate: u16,
    bank: &[u8],
    ring: &[u8],
    frame: &[u8],
    buffer: &mut [u8],
) -> Answered
    requires { has_room (reply_to judged bank.now ring.now frame.now) buffer.old ≡ true }
    ensures { outcome (Ok result) bank.now buffer.new ≡ replied judged rate bank.now ring.now frame.now buffer.old }
{
    let code = error_code(judged);
    if code != 0 {
        frame::reply_error(frame, buffer, code);
        return Answered::Error { code, rate };
    }
    match judged {
        Judged::GoodRead { first, many } => {
            let length = frame::reply_read(bank, frame, buffer, first, many);
            Answered::Reply { length, rate }
        }
        Judged::GoodRecord { first, many } => {
            let length = frame::reply_read(ring, frame, buffer, first, many);
            Answered::Reply { length, rate }
        }
        Judged::GoodClear | Judged::GoodWrite { first: _, many: _ } => {
            let length = frame::reply_echo(frame, buffer);
            Answered::Reply { length, rate }
        }
        _ => Answered::Silence,
    }
}

// How many places there are from a first one to a stop; none where the stop is in front of it.
fn count_to(first: u32, stop: u32) -> u32
    ensures { result ≡ stop - first }
{
    // Not `saturating_sub`: the theorem door_machine has the code of each call, and the kit shows none of std's `saturating_sub`.
    if stop < first { 0 } else { stop - first }
}

// Makes the stores of a judged frame.
fn make_stores(judged: Judged, sheet: &[u8], bank: &mut [u8], frame: &[u8])
    ensures { bank.new ≡ stored bank.old (stores_of judged sheet.now frame.now) }
{
    match judged {
        Judged::BadItem {
            first,
            stop,
            side: _,
        } => {
            values::store_run(bank, frame, first, count_to(first, stop));
        }
        Judged::GoodClear => {
            words::store_word(bank, 2 * (rows::bank_words(sheet) as usize), 0);
        }
        Judged::GoodWrite { first, many } => {
            values::store_run(bank, frame, first, many);
        }
        _ => {}
    }
}

// Acts on a judgement: makes its stores, and lays its reply in the buffer, at the rate before the frame. A frame that reads stores nothing,
// so no reply is of a word that the frame itself stored.
pub(crate) fn acted(
    judged: Judged,
    sheet: &[u8],
    bank: &mut [u8],
    ring: &[u8],
    frame: &[u8],
    buffer: &mut [u8],
) -> Answered
    requires { has_room (reply_to judged bank.old ring.now frame.now) buffer.old ≡ true }
    ensures { outcome (Ok result) bank.new buffer.new ≡ acted_on judged (lent_with sheet.now bank.old ring.now) frame.now buffer.old }
{
    let rate = words::word_at(bank, 2 * (rows::rate_place(sheet) as usize));
    make_stores(judged, sheet, bank, frame);
    lay_reply(judged, rate, bank, ring, frame, buffer)
}
