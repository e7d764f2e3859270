// The text of the cases: in a line fields of upper-case hexadecimal digits, two for a byte, each field ended by a space.
ghost use Rattle.std.specs.Prelude.{◌<◌, IfSome};

// The value of an upper-case hexadecimal digit.
fn value_of(digit: u8) -> Option<u8>
    ensures { IfSome result (λ value. value < 16) }
{
    match digit {
        b'0'..=b'9' => Some(digit - b'0'),
        b'A'..=b'F' => Some(digit - b'A' + 10),
        _ => None,
    }
}

// The byte that the two digits at the front of a line make, and the line behind them.
fn first_byte(line: &[u8]) -> Option<(u8, &[u8])> {
    let (digits, behind) = line.split_first_chunk::<2>()?;
    let high = value_of(digits[0])?;
    let low = value_of(digits[1])?;
    Some((high * 16 + low, behind))
}

// The rest of a line, from a place on.
pub(crate) fn behind(line: &[u8], at: usize) -> &[u8] {
    line.get(at..).unwrap_or(&[])
}

// The bytes of the field at the front of a line, laid into a room as far as they fit, and the line behind it.
pub(crate) fn bytes<'a, 'b>(line: &'a [u8], room: &'b mut [u8]) -> (&'b [u8], &'a [u8]) {
    let mut rest = line;
    let mut taken = 0;
    for (at, slot) in room.iter_mut().enumerate() {
        let Some((byte, after)) = first_byte(rest) else {
            break;
        };
        *slot = byte;
        taken = at + 1;
        rest = after;
    }
    (room.get(..taken).unwrap_or(&[]), behind(rest, 1))
}

// The word of the field at a place; a byte that is missing counts as 0.
pub(crate) fn word_at(line: &[u8], at: usize) -> u16 {
    let Some((upper, after)) = first_byte(behind(line, at)) else {
        return 0;
    };
    let lower = first_byte(after).map_or(0, |(lower, _)| lower);
    u16::from_be_bytes([upper, lower])
}
