use dw_key::Bytes;

/// What is to stand in a table under a key.
#[derive(Debug, Drop)]
pub struct Put {
    pub table: u8,
    pub key: Bytes,
    pub content: Bytes,
}

/// What stands in a table under a key.
#[derive(Debug, Drop)]
pub struct Cell {
    pub key: Bytes,
    pub content: Bytes,
}

/// A read that was made, as it was asked for.
#[derive(Debug, Drop)]
pub struct Reading {
    pub table: u8,
    pub from: Bytes,
    pub before: Bytes,
    pub limit: u32,
}
