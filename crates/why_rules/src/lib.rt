// Why a frame gets silence or an error: specs/ has the facts and their order, proofs/ their laws. Here are the types that they speak of; there
// is no code.
#![tactic(auto)]

use range::Side;

// The reason for silence or an error, in the order in which reasons are told. `address` is the first bad address of a run, or
// that of a clear elsewhere or of a record that is not stored; of an item, the first address of the first bad one, and `side` the side at which the
// value that this item would have misses its range.
#[derive(Clone, Copy)]
pub enum Reason {
    TooShort,
    TooLong,
    Check,
    Station,
    Function,
    BodyLength,
    Count,
    Address { address: u32 },
    ClearValue,
    Item { address: u32, side: Side },
}
