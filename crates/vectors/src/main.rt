// Published check values, run through the real functions: a line each with what was checked, what is expected, what was got, and
// whether they agree.
#![tactic(auto)]

use check_value::Check;
use std::io;
use std::io::Stdout;

// The frames that document 002 prints.
const FRAMES: [(&str, &[u8]); 7] = [
    ("002, 6.1 query", b"\x02\x03\x00\x00\x00\x01\x84\x39"),
    ("002, 6.1 reply", b"\x02\x03\x02\x00\x64\xFD\xAF"),
    ("002, 6.2 query", b"\x01\x04\x00\x04\x00\x02\x30\x0A"),
    ("002, 6.2 reply", b"\x01\x04\x04\x43\x40\x00\x00\xEF\xD4"),
    (
        "002, 6.3 query and echo",
        b"\x01\x06\x01\x40\x00\x01\x48\x22",
    ),
    (
        "002, 6.4 query",
        b"\x01\x10\x00\x04\x00\x06\x0C\x00\x06\x00\x00\x40\x72\xC0\x00\x00\x00\x00\x00\x51\xAB",
    ),
    ("002, 6.4 reply", b"\x01\x10\x00\x04\x00\x06\x01\xCA"),
];

// Two words, compared. The program cases has its like: two programs, and too little for a crate of its own.
fn compare(out: Stdout, what: &str, expected: u16, got: u16) -> io::Result<()> {
    let verdict = if expected == got { "ok" } else { "WRONG" };
    println!(out; "{what}: expected {expected:04X}, got {got:04X}, {verdict}")
}

// A frame as it is printed: its last two bytes are the check of those before them, low byte first, and the frame passes.
fn compare_frame(out: Stdout, what: &str, frame: &[u8]) -> io::Result<()> {
    let [covered @ .., low, high] = frame else {
        return println!(out; "a frame of under two bytes, WRONG");
    };
    let expected = u16::from_le_bytes([*low, *high]);
    compare(out, what, expected, check_value::value_of(covered))?;
    if !check_value::passes(frame) {
        println!(out; "  it does not pass, WRONG")?;
    }
    Ok(())
}

// Document 001, section 9, prints the state after each of the first two bytes of its example.
fn compare_states(out: Stdout) -> io::Result<()> {
    let first = Check::start().take(0x01);
    compare(out, "001, the state after 01", 0x807E, first.value())?;
    let second = first.take(0x03);
    compare(out, "001, the state after 01 03", 0x2140, second.value())
}

// The example of the Modbus over Serial Line guide, sealed in a buffer.
fn compare_sealed(out: Stdout) -> io::Result<()> {
    let mut buffer = [0x02, 0x07, 0, 0];
    check_value::seal(&mut buffer, 2);
    compare_frame(out, "serial line guide, 02 07 sealed", &buffer)?;
    let behind = words::word_at(&buffer, 2);
    compare(out, "serial line guide, 41 12 behind it", 0x4112, behind)
}

fn main(rt: HostRuntime) -> io::Result<()> {
    let out = rt.stdout();
    let digits = check_value::value_of(b"123456789");
    compare(out, "the nine characters 123456789", 0x4B37, digits)?;
    compare(out, "no bytes", 0xFFFF, check_value::value_of(b""))?;
    compare_states(out)?;
    compare_frame(out, "001, 9", b"\x01\x03\x02\x01\x09\x79\xD2")?;
    compare_sealed(out)?;
    for (what, frame) in FRAMES {
        compare_frame(out, what, frame)?;
    }
    Ok(())
}
