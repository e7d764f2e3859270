// The listing program: a sheet on standard input, its listing on standard output.
#![tactic(auto)]

ghost use Rattle.std.specs.Prelude.{◌≤◌, length, IfOk};

use std::io;
use std::io::{Read, Stdin};

// One byte more than the longest sheet, so that a sheet with a byte too many is seen.
const ROOM: usize = 863;

// Reads until a room is full or the input ends, and hands out what was read, no more than there is room for. By hand, and not by `read_to_end`: the programs have no heap, as nothing here.
fn read_front(mut input: Stdin, room: &mut [u8]) -> io::Result<&[u8]>
    ensures { IfOk result (λ front. length front.now ≤ length room.old) }
{
    let mut done = 0;
    while done < room.len() {
        let n = input.read(&mut room[done..])?;
        if n == 0 {
            break;
        }
        done += n;
    }
    Ok(&room[..done])
}

fn main(rt: HostRuntime) -> io::Result<()> {
    let mut room = [0; ROOM];
    let sheet = read_front(rt.stdin(), &mut room)?;
    let _ = listing_print::print(rt.stdout(), sheet);
    Ok(())
}
