// The check value, as a running state: rule C9.
#![tactic(auto)]

// (a) The check's two bytes are put together and apart here, and not by from_le_bytes and to_le_bytes: as in `words`, crates/runs shows a machine that has all of this code (claim D13).

ghost use Rattle.std.specs.Prelude.{◌≡◌};
ghost use Rattle.check_value.specs.Check.{start_state, bits_of_byte, shifted_times, taken, value_of, check_at};
ghost use Rattle.check_value.specs.Frame.{passes, sealed};

// Rule C1.
const START_STATE: u16 = 0xFFFF;

// Rule C6, the length; the last two bytes hold the check.
pub const SHORTEST: usize = 4;

pub const LONGEST: usize = 100;

pub const CHECK_BYTES: usize = 2;

// The running state.
#[derive(Clone, Copy)]
pub struct Check {
    pub state: u16,
}

// What is added to a byte with an odd number of ones: bits 8 and 26 to 31.
const ODD: u32 = 0xFC00_0100;

// What eight shifts make of a state that is below 256. The one function that knows how a byte is shifted out: for this polynomial
// the byte itself at bits 6 and 7 and, where it has an odd number of ones, C001. One rotation of 32 bits to the left by 6 gives all of
// that: of the byte, with ODD added where its ones are odd in number, combined with its own double in 32 bits. Of ODD that leaves
// bits 8, 9 and 26, which become 14, 15 and 0. No form that was measured takes fewer instructions without taking more room
// (docs/BENCH.md, "Forms of the check value").
fn eight_shifts(low: u8) -> u16
    ensures { result ≡ shifted_times bits_of_byte low }
{
    let byte = low as u32;
    let marked = if byte.count_ones() % 2 == 1 {
        byte + ODD
    } else {
        byte
    };
    let both = marked ^ marked % 0x8000_0000 * 2;
    (both % 1024 * 64 + both / 0x400_0000) as u16
}

impl Check {
    // The state before any byte.
    pub fn start() -> Check
        ensures { result ≡ check_at start_state }
    {
        Check { state: START_STATE }
    }

    // The state after one byte more.
    pub fn take(self, byte: u8) -> Check
        ensures { result ≡ check_at (taken self.state byte) }
    {
        let mixed = self.state ^ (byte as u16);
        let low = (mixed % 256) as u8;
        Check {
            state: (mixed / 256) ^ eight_shifts(low),
        }
    }

    // The check value of the bytes taken so far.
    pub fn value(self) -> u16
        ensures { result ≡ self.state }
    {
        self.state
    }
}

// The check value of a whole slice. It is called from many places of the archive, which is to stay small.
#[inline(never)]
#[tactic(auto, using(crate::proofs::Running::after_step, crate::proofs::Running::after_end), unfolding(crate::specs::Check::value_of))]
pub fn value_of(bytes: &[u8]) -> u16
    ensures { result ≡ value_of bytes.now }
{
    let mut check = Check::start();
    for &byte in bytes {
        check = check.take(byte);
    }
    check.value()
}

// Whether a frame passes: 4 to 100 bytes, and the last two hold the check of those before them, low byte first.
#[tactic(auto, unfolding(crate::specs::Frame::passes))]
pub fn passes(frame: &[u8]) -> bool
    ensures { result ≡ passes frame.now }
{
    match frame {
        [covered @ .., low, high] if matches!(frame.len(), SHORTEST..=LONGEST) => {
            value_of(covered) == *high as u16 * 256 + *low as u16
        }
        _ => false,
    }
}

// Puts behind the first n bytes of a buffer their check, low byte first; without room for it the buffer stays as it is.
#[tactic(auto, unfolding(crate::specs::Frame::sealed))]
pub fn seal(buffer: &mut [u8], n: usize)
    ensures { buffer.new ≡ sealed buffer.old n }
{
    if buffer.len() < CHECK_BYTES || buffer.len() - CHECK_BYTES < n {
        return;
    }
    let value = value_of(&buffer[..n]);
    buffer[n] = (value % 256) as u8;
    buffer[n + 1] = (value / 256) as u8;
}
