// The rules by which a box asks a meter and reads what comes back, with their laws and tables: specs/ and proofs/ hold them. They know frames, and no
// meter. Here are the types that they speak of; there is no code.
#![tactic(auto)]

// What a box asks of a meter, in the numbers that it hands over: rules Q1 and Q2. The values of several writes are lent beside it. An order of no
// known kind has no frame: rule Q10. It is a case and no Option, since `ask` and `order_by` make orders of it.
#[derive(Clone, Copy)]
pub enum Order {
    Read { start: u32, count: u32 },
    Record { address: u32, words: u32 },
    Write { address: u32, value: u32 },
    Writes { start: u32 },
    Clear { address: u32 },
    Unknown,
}

// What reading a reply against an order answers, where the reply is taken. The length of values is in bytes.
#[derive(Clone, Copy)]
pub enum Reading {
    Values { length: u32 },
    Done,
    Error { code: u8 },
}
