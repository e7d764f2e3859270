// Bytes and sixteen-bit words in lent bytes, upper byte first. Every function takes any slice and any place: a read past the
// end gives 0, and a store that does not fit changes nothing, so no caller has to show that a place is inside.
#![tactic(auto)]

// (a) Words are put together and apart here, and not by from_be_bytes: crates/runs shows a machine that has all of this code (claim D13), and no crate can name the library's.

ghost use Rattle.std.specs.Prelude.{◌≡◌, ◌+◌, ◌≤◌, length};
ghost use Rattle.words.specs.Words.{byte_at, word_at, with_byte, with_word};

// From here on the place behind a word wraps. A caller's place is mostly known to be small, and then no test against this is left.
const TOO_FAR: usize = usize::MAX - 1;

// The byte at a place, or 0 past the end. Not `get`, nor `get_mut` below: the theorem door_machine has the code of each call, and the kit shows none of std's either.
pub fn byte_at(bytes: &[u8], at: usize) -> u8
    ensures { result ≡ byte_at bytes.now at }
{
    if at < bytes.len() { bytes[at] } else { 0 }
}

// The word at a place that has no lower byte: a byte past the end counts as 0.
#[tactic(auto, unfolding(crate::specs::Words::word_at))]
fn last_word(bytes: &[u8], at: usize) -> u16
    requires { length bytes.now ≤ at + 1 }
    ensures { result ≡ word_at bytes.now at }
{
    let last = byte_at(bytes, at) as u16;
    last * 256
}

// The word at a place: its upper byte there, its lower byte behind it. A byte past the end counts as 0. In the usual case one test, of
// where the word ends, stands in front of both bytes: so they are read at once.
// (b) Both tests as one condition take 16 instructions where these take 13, and a match of `[upper, lower, ..]` takes 2 or 3 more than these at a place that is known to be small.
#[tactic(auto, unfolding(crate::specs::Words::word_at))]
pub fn word_at(bytes: &[u8], at: usize) -> u16
    ensures { result ≡ word_at bytes.now at }
{
    if at >= TOO_FAR {
        return last_word(bytes, at);
    }
    if bytes.len() < at + 2 {
        return last_word(bytes, at);
    }
    let upper = bytes[at] as u16;
    let lower = bytes[at + 1] as u16;
    upper * 256 + lower
}

// Stores a byte at a place; past the end nothing changes.
pub fn store_byte(bytes: &mut [u8], at: usize, byte: u8)
    ensures { bytes.new ≡ with_byte bytes.old at byte }
{
    if at < bytes.len() {
        bytes[at] = byte;
    }
}

// Stores a word at a place, upper byte first; where a byte of it would lie past the end nothing changes. Tested as in `word_at`.
#[tactic(auto, unfolding(crate::specs::Words::with_word))]
pub fn store_word(bytes: &mut [u8], at: usize, word: u16)
    ensures { bytes.new ≡ with_word bytes.old at word }
{
    if at < TOO_FAR && at + 2 <= bytes.len() {
        bytes[at] = (word / 256) as u8;
        bytes[at + 1] = (word % 256) as u8;
    }
}
