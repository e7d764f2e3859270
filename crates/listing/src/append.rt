// Appending to a line, which is handed in and back. A line that is full stays as it is.
ghost use Rattle.std.specs.Prelude.{◌≡◌, ◌%◌, ◌<◌, ◌^◌, nat_abs};
ghost use Rattle.listing.specs.Text.{digit_of, decimal, signed_decimal, hexadecimal};
ghost use Rattle.listing.specs.Line.{with_character, with_text};

use super::Line;

// The upper-case digit of the lowest four bits.
// Printed by hand: the promises name the bytes, which std's formatting states only of a `String`, and a library has no heap.
fn digit(n: u32) -> u8
    ensures { result ≡ digit_of (n % 16) }
{
    let low = (n % 16) as u8;
    if low < 10 {
        return b'0' + low;
    }
    b'A' + (low - 10)
}

impl Line {
    // One byte.
    pub(crate) fn byte(mut self, byte: u8) -> Line
        ensures { result ≡ with_character self byte }
    {
        let at = self.len;
        if at < self.bytes.len() {
            self.bytes[at] = byte;
            self.len = at + 1;
        }
        self
    }

    // The bytes of a text.
    pub(crate) fn text(self, text: &[u8]) -> Line
        ensures { result ≡ with_text self text.now }
    {
        let mut line = self;
        for &byte in text {
            line = line.byte(byte);
        }
        line
    }

    // A number in decimal.
    pub(crate) fn decimal(self, n: u32) -> Line
        ensures { result ≡ with_text self (decimal n) }
    {
        if n < 10 {
            return self.byte(digit(n));
        }
        self.decimal(n / 10).byte(digit(n % 10))
    }

    // A number in decimal, with its sign.
    pub(crate) fn signed(self, n: i64) -> Line
        requires { nat_abs n < 2 ^ 32 }
        ensures { result ≡ with_text self (signed_decimal n) }
    {
        let size = n.unsigned_abs() as u32;
        if n < 0 {
            return self.byte(b'-').decimal(size);
        }
        self.decimal(size)
    }

    // The lowest four hexadecimal digits of a number.
    pub(crate) fn hexadecimal(self, n: u32) -> Line
        ensures { result ≡ with_text self (hexadecimal n) }
    {
        self.byte(digit(n / 4096))
            .byte(digit(n / 256))
            .byte(digit(n / 16))
            .byte(digit(n))
    }
}
