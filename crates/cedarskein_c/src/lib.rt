// The door as C calls it: each function of `cedarskein` under its own name, with its promises said again. Twice, since no crate may stand on a static library. The archive is made of this crate.
#![tactic(auto)]

ghost use Rattle.std.specs.Prelude.{◌≡◌};
ghost use Rattle.words.specs.Words.{Bytes};
ghost use Rattle.check_value.specs.Check.{start_state, taken, value_of};
ghost use Rattle.refusals.specs.Answers.{answer_number};
ghost use Rattle.sheet_rules.specs.Rules.{sheet_answer};
ghost use Rattle.bank_rules.specs.Calls.{lent, lent_with, check_answer, fresh_outcome, post_outcome, mark_outcome};
ghost use Rattle.ring_rules.specs.Calls.{ring_answer, add_outcome};
ghost use Rattle.meter_rules.specs.Answer.{answer_outcome};
ghost use Rattle.why_rules.specs.Reasons.{explanation};
ghost use Rattle.controller_rules.specs.Order.{asked_by};
ghost use Rattle.controller_rules.specs.Query.{build_outcome};
ghost use Rattle.controller_rules.specs.Reading.{reading_outcome};
ghost use Rattle.cedarskein.specs.Door.{told, told_of, ring_told, ring_told_of, handed, handed_of, said, said_of, query_told, query_told_of, reply_told, reply_told_of};

#[unsafe(no_mangle)]
pub extern "C" fn cedarskein_check_start() -> u16
    ensures { result ≡ start_state }
{
    cedarskein::cedarskein_check_start()
}

#[unsafe(no_mangle)]
pub extern "C" fn cedarskein_check_take(state: u16, byte: u8) -> u16
    ensures { result ≡ taken state byte }
{
    cedarskein::cedarskein_check_take(state, byte)
}

#[unsafe(no_mangle)]
pub extern "C" fn cedarskein_check_value(bytes: &[u8]) -> u16
    ensures { result ≡ value_of bytes.now }
{
    cedarskein::cedarskein_check_value(bytes)
}

#[unsafe(no_mangle)]
pub extern "C" fn cedarskein_sheet_check(sheet: &[u8]) -> u32
    ensures { result ≡ answer_number (sheet_answer sheet.now) }
{
    cedarskein::cedarskein_sheet_check(sheet)
}

#[unsafe(no_mangle)]
pub extern "C" fn cedarskein_bank_check(sheet: &[u8], bank: &[u8]) -> u32
    ensures { result ≡ answer_number (check_answer (lent sheet.now bank.now)) }
{
    cedarskein::cedarskein_bank_check(sheet, bank)
}

#[unsafe(no_mangle)]
pub extern "C" fn cedarskein_bank_fresh(sheet: &[u8], bank: &mut [u8]) -> u32
    ensures { told result bank.new ≡ told_of (fresh_outcome (lent sheet.now bank.old)) }
{
    cedarskein::cedarskein_bank_fresh(sheet, bank)
}

#[unsafe(no_mangle)]
pub extern "C" fn cedarskein_post(sheet: &[u8], bank: &mut [u8], address: u32, words: &[u8]) -> u32
    ensures { told result bank.new ≡ told_of (post_outcome (lent sheet.now bank.old) address words.now) }
{
    cedarskein::cedarskein_post(sheet, bank, address, words)
}

#[unsafe(no_mangle)]
pub extern "C" fn cedarskein_set_mark(sheet: &[u8], bank: &mut [u8], mark: u32) -> u32
    ensures { told result bank.new ≡ told_of (mark_outcome (lent sheet.now bank.old) mark) }
{
    cedarskein::cedarskein_set_mark(sheet, bank, mark)
}

#[unsafe(no_mangle)]
pub extern "C" fn cedarskein_ring_check(sheet: &[u8], ring: &[u8]) -> u32
    ensures { result ≡ answer_number (ring_answer sheet.now ring.now) }
{
    cedarskein::cedarskein_ring_check(sheet, ring)
}

#[unsafe(no_mangle)]
pub extern "C" fn cedarskein_add_record(sheet: &[u8], ring: &mut [u8], bytes: &[u8]) -> u32
    ensures { ring_told result ring.new ≡ ring_told_of (add_outcome sheet.now ring.old bytes.now) }
{
    cedarskein::cedarskein_add_record(sheet, ring, bytes)
}

#[unsafe(no_mangle)]
pub extern "C" fn cedarskein_answer(
    sheet: &[u8],
    bank: &mut [u8],
    ring: &[u8],
    frame: &[u8],
    out: &mut [u8],
    length: &mut u32,
    rate: &mut u32,
) -> u32
    ensures outcome { handed result length.new rate.new bank.new out.new ≡ handed_of (answer_outcome (lent_with sheet.now bank.old ring.now) frame.now out.old) }
    ensures bytes { Bytes sheet.now × Bytes bank.old × Bytes ring.now × Bytes frame.now × Bytes out.old × Bytes bank.new × Bytes out.new }
{
    cedarskein::cedarskein_answer(sheet, bank, ring, frame, out, length, rate)
}

#[unsafe(no_mangle)]
pub extern "C" fn cedarskein_why(
    sheet: &[u8],
    bank: &[u8],
    ring: &[u8],
    frame: &[u8],
    reason: &mut u32,
    address: &mut u32,
    side: &mut u32,
) -> u32
    ensures outcome { said result reason.new address.new side.new ≡ said_of (explanation (lent_with sheet.now bank.now ring.now) frame.now) }
    ensures bytes { Bytes sheet.now × Bytes bank.now × Bytes ring.now × Bytes frame.now }
{
    cedarskein::cedarskein_why(sheet, bank, ring, frame, reason, address, side)
}

#[unsafe(no_mangle)]
pub extern "C" fn cedarskein_query(
    order: u32,
    station: u32,
    address: u32,
    number: u32,
    values: &[u8],
    out: &mut [u8],
    length: &mut u32,
) -> u32
    ensures outcome { query_told result length.new out.new ≡ query_told_of (build_outcome (asked_by order station address number values.now) out.old) }
    ensures bytes { Bytes values.now × Bytes out.old × Bytes out.new }
{
    cedarskein::cedarskein_query(order, station, address, number, values, out, length)
}

#[unsafe(no_mangle)]
pub extern "C" fn cedarskein_reply(
    order: u32,
    station: u32,
    address: u32,
    number: u32,
    values: &[u8],
    reply: &[u8],
    out: &mut [u8],
    length: &mut u32,
    error: &mut u32,
) -> u32
    ensures outcome { reply_told result length.new error.new out.new ≡ reply_told_of (reading_outcome (asked_by order station address number values.now) reply.now out.old) }
    ensures bytes { Bytes values.now × Bytes reply.now × Bytes out.old × Bytes out.new }
{
    cedarskein::cedarskein_reply(
        order, station, address, number, values, reply, out, length, error,
    )
}
