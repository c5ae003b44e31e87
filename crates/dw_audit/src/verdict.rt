use dw_base::Bytes;

/// What an audit finds.
#[derive(Debug, Drop)]
pub enum Verdict {
    /// The tables are those of their world.
    Sound,
    /// The first cell, by table and then by key, at which the tables are not those of their world: its content
    /// as it is and as it should be, None where there is no such cell.
    Damaged {
        table: u8,
        key: Bytes,
        found: Option<Bytes>,
        wanted: Option<Bytes>,
    },
}
