// The rules by which one frame is judged and answered, with their laws: specs/ and proofs/ hold them. Here are the types that they speak
// of; there is no code.
#![tactic(auto)]

use range::Side;

// Where a write stops, where it has a bad item: at the first place of the first one, with the side at which that item would miss its range.
#[derive(Clone, Copy)]
pub struct Stop {
    pub place: u32,
    pub side: Side,
}

// Where a frame stops in the order of judgement, or that it is good. `first` is the place of its first address, `stop` the first
// place of the first bad item and `side` the side at which that item would miss its range, `many` the number of registers. Of a record, `first`
// is the word of the ring at which it begins, `many` its words.
#[derive(Clone, Copy)]
pub enum Judged {
    FailsCheck,
    OtherStation,
    FunctionNotAllowed,
    WrongLength,
    WrongCount,
    WrongAddress,
    WrongValue,
    BadItem { first: u32, stop: u32, side: Side },
    GoodRead { first: u32, many: u32 },
    GoodRecord { first: u32, many: u32 },
    GoodClear,
    GoodWrite { first: u32, many: u32 },
}

// What a call with one frame answers that is not refused. An error is a reply too: five bytes, by its code.
#[derive(Clone, Copy)]
pub enum Answered {
    Reply { length: u32, rate: u16 },
    Error { code: u8, rate: u16 },
    Silence,
}
