// The rules of a sheet, with their laws: specs/ and proofs/ hold them. Here are the types that they speak of; there is no code.
#![tactic(auto)]

// The header: rules S0 to S11.
#[derive(Clone, Copy)]
pub struct Header {
    pub version: u16,
    pub areas: u16,
    pub area_offset: u16,
    pub items: u16,
    pub item_offset: u16,
    pub bank: u16,
    pub functions: u16,
    pub words: u16,
    pub address: u16,
    pub rate: u16,
    pub clear: u16,
    pub record_areas: u16,
}

// An area row: rule S20.
#[derive(Clone, Copy)]
pub struct Area {
    pub first: u16,
    pub last: u16,
    pub place: u16,
    pub access: u16,
}

// An item row: rule S40. Its kind and an area's access stay numbers: a row may hold any word there, and the rules speak of each.
#[derive(Clone, Copy)]
pub struct Item {
    pub kind: u16,
    pub place: u16,
    pub low: u32,
    pub high: u32,
}

// The record area: rule S80. It is one without records where a sheet has none.
#[derive(Clone, Copy)]
pub struct RecordArea {
    pub first: u16,
    pub records: u16,
    pub words: u16,
}

// What lies at an address, where anything does: a place of the bank, with the access of its area. Rule S29.
#[derive(Clone, Copy)]
pub struct Lies {
    pub place: u32,
    pub access: u16,
}

// What a run of addresses is for.
#[derive(Clone, Copy)]
pub enum Purpose {
    Read,
    Write,
}

// A run of addresses from a start on: the place of the start, and the first address that is not open.
#[derive(Clone, Copy)]
pub struct Run {
    pub place: u32,
    pub end: u32,
}
