// What is expected of a case, what was got, and whether they agree.
use meter_rules::Answered;
use refusals::Refusal;
use std::io::Stdout;
use std::{fmt, io};

// What every byte of an answer buffer holds before the call.
pub(crate) const FILL: u8 = 0xAA;

// 01's number for what a call handed back.
pub(crate) fn number(answered: Result<Answered, Refusal>) -> u16 {
    match answered {
        Ok(Answered::Silence) => 1,
        Ok(_) => 0,
        Err(refusal) => u32::from(refusal) as u16,
    }
}

// The length and the rate of a reply, which an error is too; none of a silence or a refusal.
fn length_and_rate(answered: Result<Answered, Refusal>) -> Option<(usize, u16)> {
    match answered {
        Ok(Answered::Reply { length, rate }) => Some((length as usize, rate)),
        Ok(Answered::Error { code: _, rate }) => Some((frame::ERROR_LENGTH as usize, rate)),
        Ok(Answered::Silence) | Err(_) => None,
    }
}

// A reply without its check.
fn without_check(reply: &[u8]) -> &[u8] {
    reply
        .split_last_chunk::<2>()
        .map_or(&[], |(front, _)| front)
}

// Whether a part of a buffer is as it was.
fn untouched(part: &[u8]) -> bool {
    part.iter().all(|byte| *byte == FILL)
}

// The reply in the front of a buffer, without its check; empty where there is none.
pub(crate) fn reply(answered: Result<Answered, Refusal>, buffer: &[u8]) -> &[u8] {
    let Some((length, _)) = length_and_rate(answered) else {
        return &[];
    };
    without_check(buffer.get(..length).unwrap_or(&[]))
}

// Whether a reply is the expected one: its rate, its bytes, its check, and the buffer behind it.
pub(crate) fn is_reply(
    answered: Result<Answered, Refusal>,
    buffer: &[u8],
    expected: &[u8],
    expected_rate: u16,
) -> bool {
    let Some((length, rate)) = length_and_rate(answered) else {
        return false;
    };
    let Some((reply, behind)) = buffer.split_at_checked(length) else {
        return false;
    };
    rate == expected_rate
        && without_check(reply) == expected
        && check_value::passes(reply)
        && untouched(behind)
}

// Whether a silence is one: its answer, and a buffer and a bank as before.
pub(crate) fn is_silence(
    answered: Result<Answered, Refusal>,
    buffer: &[u8],
    bank_kept: bool,
) -> bool {
    matches!(answered, Ok(Answered::Silence)) && bank_kept && untouched(buffer)
}

// A reply without its check as it is printed: its bytes, or that there is none. It is printed at once: a print for each byte costs more than the byte.
#[derive(Clone, Copy)]
struct Shown<'a> {
    bytes: &'a [u8],
}

impl fmt::Display for Shown<'_> {
    fn fmt<W: fmt::Write>(&self, f: &mut fmt::Formatter<W>) -> fmt::Result {
        if self.bytes.is_empty() {
            return write!(f, " silence");
        }
        for byte in self.bytes {
            write!(f, " {byte:02X}")?;
        }
        Ok(())
    }
}

fn verdict(good: bool) -> &'static str {
    if good { "ok" } else { "WRONG" }
}

// Two words, compared. The program vectors has its like: two programs, and too little for a crate of its own.
pub(crate) fn compare(out: Stdout, name: &[u8], expected: u16, got: u16) -> io::Result<()> {
    let verdict = verdict(expected == got);
    out.write_all(name)?;
    println!(out; ": expected {expected:04X}, got {got:04X}, {verdict}")
}

// Two replies, compared.
pub(crate) fn compare_replies(
    out: Stdout,
    name: &[u8],
    expected: &[u8],
    got: &[u8],
    good: bool,
) -> io::Result<()> {
    let verdict = verdict(good);
    let expected = Shown { bytes: expected };
    let got = Shown { bytes: got };
    out.write_all(name)?;
    println!(out; ": expected{expected}, got{got}, {verdict}")
}
