// The judgement of a value by its bounds, one for the three kinds of item.
// Nothing of `std` is called, so casts are by `as`: `runs::proofs::Machine` holds each function that is called, and the kit shuts the code of `std`.
#![tactic(auto)]

ghost use Rattle.std.specs.Prelude.{◌≡◌, pos, ◌+ℤ◌};
ghost use Rattle.range.specs.Range.{signed_word, number_of, not_above, side_of, inside, in_range};

// The number that a value of a kind stands for. No cast to `i16` says it: `number_of` speaks of each value, also of one above a word.
// A kind stays a number, here and below, and is no enum: `number_of` speaks of each kind, as the first word of a sheet's row may be any.
#[tactic(auto, using(crate::proofs::Keys::plain_cast, crate::proofs::Keys::low_cast, crate::proofs::Keys::high_cast))]
pub fn number(kind: u16, value: u32) -> i64
    ensures { result ≡ number_of kind value }
{
    if kind == 1 && 0x8000 <= value {
        return value as i64 - 0x10000;
    }
    value as i64
}

// The key of a signed word, the number that it stands for and 0x10000 more: keys have no sign, and stand in the order of the numbers.
#[tactic(auto, using(crate::proofs::Keys::low_key, crate::proofs::Keys::high_key))]
fn key(value: u32) -> u32
    ensures { pos result ≡ number_of signed_word value +ℤ pos 0x10000 }
{
    if 0x8000 <= value {
        return value;
    }
    value + 0x10000
}

// Whether one value of a kind is not above another, as the numbers that they stand for. Only signed words need keys.
#[tactic(auto, using(crate::proofs::Keys::keys_compared, crate::proofs::Keys::values_compared))]
pub fn not_above(kind: u16, a: u32, b: u32) -> bool
    ensures { result ≡ not_above kind a b }
{
    if kind == 1 {
        return key(a) <= key(b);
    }
    a <= b
}

// At which side of its range a value lies: in it, below the low bound, or above the high one.
#[derive(Clone, Copy, PartialEq, Eq)]
pub enum Side {
    InRange,
    TooLow,
    TooHigh,
}

// The judgement of a value of a kind by its bounds. The low bound is looked at first. Kind and bounds by themselves: `range` lies below the crate that has items,
// and a struct here would be taken out of an item at each caller.
#[tactic(auto, unfolding(crate::specs::Range::side_of, crate::specs::Range::below))]
pub fn side_of(kind: u16, low: u32, high: u32, value: u32) -> Side
    ensures { result ≡ side_of kind low high value }
{
    if !not_above(kind, low, value) {
        return Side::TooLow;
    }
    if !not_above(kind, value, high) {
        return Side::TooHigh;
    }
    Side::InRange
}

// Whether a side is the inside.
pub fn inside(side: Side) -> bool
    ensures { result ≡ inside side }
{
    side == Side::InRange
}

// Whether a value of a kind lies in its range.
#[tactic(auto, unfolding(crate::specs::Range::in_range))]
pub fn in_range(kind: u16, low: u32, high: u32, value: u32) -> bool
    ensures { result ≡ in_range kind low high value }
{
    inside(side_of(kind, low, high, value))
}
