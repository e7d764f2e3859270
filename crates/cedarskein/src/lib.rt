// The door for the firmware of a board, and of a box that asks boards: the library's calls over byte slices (a pointer and a length) and numbers, as C has them.
// cedarskein_c hands them to C, under the same names.
#![tactic(auto)]

ghost use Rattle.std.specs.Prelude.{◌≡◌};
ghost use Rattle.words.specs.Words.{Bytes};
ghost use Rattle.check_value.specs.Check.{start_state, taken, value_of};
ghost use Rattle.refusals.specs.Answers.{answer_number};
ghost use Rattle.sheet_rules.specs.Rules.{sheet_answer};
ghost use Rattle.bank_rules.specs.Calls.{lent, lent_with, check_answer, fresh_outcome, post_outcome, mark_outcome};
ghost use Rattle.ring_rules.specs.Calls.{ring_answer, add_outcome};
ghost use Rattle.meter_rules.specs.Answer.{answer_outcome};
ghost use Rattle.why_rules.specs.Reasons.{explanation};
ghost use Rattle.controller_rules.specs.Order.{asked_by};
ghost use Rattle.controller_rules.specs.Query.{build_outcome};
ghost use Rattle.controller_rules.specs.Reading.{reading_outcome};
ghost use Rattle.cedarskein.specs.Door.{told, told_of, ring_told, ring_told_of, handed, handed_of, said, said_of, query_told, query_told_of, reply_told, reply_told_of};

mod numbers;

use check_value::Check;

// The check value as a running state: the state before any byte.
pub fn cedarskein_check_start() -> u16
    ensures { result ≡ start_state }
{
    Check::start().value()
}

// The state after one byte more.
pub fn cedarskein_check_take(state: u16, byte: u8) -> u16
    ensures { result ≡ taken state byte }
{
    let check = Check { state };
    check.take(byte).value()
}

// The check value of a whole slice.
pub fn cedarskein_check_value(bytes: &[u8]) -> u16
    ensures { result ≡ value_of bytes.now }
{
    check_value::value_of(bytes)
}

// 0, or 2 where the sheet breaks a rule.
pub fn cedarskein_sheet_check(sheet: &[u8]) -> u32
    ensures { result ≡ answer_number (sheet_answer sheet.now) }
{
    numbers::number(&sheet::check(sheet))
}

// 0, or 2, 3, 4 in this order.
pub fn cedarskein_bank_check(sheet: &[u8], bank: &[u8]) -> u32
    ensures { result ≡ answer_number (check_answer (lent sheet.now bank.now)) }
{
    numbers::number(&bank::check(sheet, bank))
}

// Makes a bank fresh: 0, or 2, 3 in this order.
pub fn cedarskein_bank_fresh(sheet: &[u8], bank: &mut [u8]) -> u32
    ensures { told result bank.new ≡ told_of (fresh_outcome (lent sheet.now bank.old)) }
{
    numbers::number(&bank::fresh(sheet, bank))
}

// Posts words from an address upward: 0, or 2, 3, 4, 7, 6 in this order.
pub fn cedarskein_post(sheet: &[u8], bank: &mut [u8], address: u32, words: &[u8]) -> u32
    ensures { told result bank.new ≡ told_of (post_outcome (lent sheet.now bank.old) address words.now) }
{
    numbers::number(&bank::post(sheet, bank, address, words))
}

// Sets the alarm mark: 0, or 2, 3, 4, 7 in this order.
pub fn cedarskein_set_mark(sheet: &[u8], bank: &mut [u8], mark: u32) -> u32
    ensures { told result bank.new ≡ told_of (mark_outcome (lent sheet.now bank.old) mark) }
{
    numbers::number(&bank::set_mark(sheet, bank, mark))
}

// 0, or 2, 8 in this order.
pub fn cedarskein_ring_check(sheet: &[u8], ring: &[u8]) -> u32
    ensures { result ≡ answer_number (ring_answer sheet.now ring.now) }
{
    numbers::number(&ring::check(sheet, ring))
}

// Adds the bytes of one whole record to a ring: 0, or 2, 8, 7 in this order; 2 also where the sheet has no record area.
pub fn cedarskein_add_record(sheet: &[u8], ring: &mut [u8], bytes: &[u8]) -> u32
    ensures { ring_told result ring.new ≡ ring_told_of (add_outcome sheet.now ring.old bytes.now) }
{
    numbers::number(&ring::add(sheet, ring, bytes))
}

// Answers one frame: 0 with the length of the reply and the rate to send it at, 1 for silence, or 2, 3, 4, 8, 5 in this order. Length
// and rate are written on every call, zeros where there is no reply. The second promise is the language's own rule for slices: what is lent
// and what is left are bytes. It is said here so that the demands need not suppose it.
pub fn cedarskein_answer(
    sheet: &[u8],
    bank: &mut [u8],
    ring: &[u8],
    frame: &[u8],
    out: &mut [u8],
    length: &mut u32,
    rate: &mut u32,
) -> u32
    ensures outcome { handed result length.new rate.new bank.new out.new ≡ handed_of (answer_outcome (lent_with sheet.now bank.old ring.now) frame.now out.old) }
    ensures bytes { Bytes sheet.now × Bytes bank.old × Bytes ring.now × Bytes frame.now × Bytes out.old × Bytes bank.new × Bytes out.new }
{
    let answered = meter::answer(sheet, bank, ring, frame, out);
    *length = numbers::length_of(answered);
    *rate = numbers::rate_of(answered);
    numbers::of_answered(answered)
}

// Tells why a frame gets silence or an error: 0 with the reason's number, its address and its side, or 2, 3, 4, 8 in this order. Reason, address
// and side are written on every call, zeros with a refusal. The second promise is as above.
pub fn cedarskein_why(
    sheet: &[u8],
    bank: &[u8],
    ring: &[u8],
    frame: &[u8],
    reason: &mut u32,
    address: &mut u32,
    side: &mut u32,
) -> u32
    ensures outcome { said result reason.new address.new side.new ≡ said_of (explanation (lent_with sheet.now bank.now ring.now) frame.now) }
    ensures bytes { Bytes sheet.now × Bytes bank.now × Bytes ring.now × Bytes frame.now }
{
    let explained = why::why(sheet, bank, ring, frame);
    *reason = numbers::reason_in(explained);
    *address = numbers::address_in(explained);
    *side = numbers::side_in(explained);
    numbers::number(&explained)
}

// Builds the query of an order: 0 with its length, or 9, 5 in this order. The length is written on every call, 0 with a refusal. The second promise
// is as above.
pub fn cedarskein_query(
    order: u32,
    station: u32,
    address: u32,
    number: u32,
    values: &[u8],
    out: &mut [u8],
    length: &mut u32,
) -> u32
    ensures outcome { query_told result length.new out.new ≡ query_told_of (build_outcome (asked_by order station address number values.now) out.old) }
    ensures bytes { Bytes values.now × Bytes out.old × Bytes out.new }
{
    let asked = numbers::order_of(order, address, number);
    let built = controller::query(asked, station, values, out);
    *length = numbers::length_built(built);
    numbers::number(&built)
}

// Reads a reply against the order that it answers: 0 with the length of the values and the error code, or 9, 5, 10, 11, 12, 13 in this order. Both
// are written on every call, zeros with a refusal. The second promise is as above.
pub fn cedarskein_reply(
    order: u32,
    station: u32,
    address: u32,
    number: u32,
    values: &[u8],
    reply: &[u8],
    out: &mut [u8],
    length: &mut u32,
    error: &mut u32,
) -> u32
    ensures outcome { reply_told result length.new error.new out.new ≡ reply_told_of (reading_outcome (asked_by order station address number values.now) reply.now out.old) }
    ensures bytes { Bytes values.now × Bytes reply.now × Bytes out.old × Bytes out.new }
{
    let asked = numbers::order_of(order, address, number);
    let reading = controller::reply(asked, station, values, reply, out);
    *length = numbers::length_read(reading);
    *error = numbers::error_read(reading);
    numbers::number(&reading)
}
