// Frames run through the real functions: a line each with what is expected, what was got, and whether they agree. The cases are lines of
// standard input. A letter says what a line is, fields of hexadecimal digits follow, and the rest is its name:
//   U, A         a UX15/25, or an AS-WE of bore 40, with a fresh bank
//   S sheet      the made-up sheet of these bytes, with a fresh bank
//   F            a fresh bank
//   P place word     puts a word into the bank
//   T address words  posts words
//   Q frame reply name   a frame without its check, and its reply without its check; no reply is silence
//   W frame reply name   a frame with what stands for its check
//   H place word name    what the bank then holds
//   B size           the bank at hand is of so many bytes
//   N number size frame name   the number that a frame without its check gets, with an answer buffer of so many bytes
//   # ..         a remark
#![tactic(auto)]

mod fields;
mod meters;
mod results;

use meters::AtHand;
use std::io;
use std::io::{Read, Stdin};

// The bytes of the longest text of cases.
const ROOM: usize = 65536;

// Reads until a room is full or the input ends, and hands out what was read. By hand, and not by `read_to_end`: the programs have no heap, as nothing here. The program `list` has its
// like, with a promise; it is too little for a crate of its own.
fn read_front(mut input: Stdin, room: &mut [u8]) -> io::Result<&[u8]> {
    let mut done = 0;
    while done < room.len() {
        let n = input.read(&mut room[done..])?;
        if n == 0 {
            break;
        }
        done += n;
    }
    Ok(room.get(..done).unwrap_or(&[]))
}

fn main(rt: HostRuntime) -> io::Result<()> {
    let mut room = [0; ROOM];
    let text = read_front(rt.stdin(), &mut room)?;
    let mut at_hand = AtHand::new(rt.stdout());
    for line in text.split_inclusive(|byte| *byte == b'\n') {
        // what is not ended by a line feed is not run
        if let Some(line) = line.strip_suffix(b"\n") {
            at_hand.run(line)?;
        }
    }
    Ok(())
}
