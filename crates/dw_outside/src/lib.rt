//! What stands outside the program: where bytes come from and where they go, links that are both,
//! doors through which links come, and keepers of cells in ordered tables, as traits with a count of
//! faults. Each has a form in memory, and all but the keeper have one over the host's streams and sockets.
#![tactic(auto)]

mod again;
mod cell;
mod disk;
mod door;
mod file_disk;
mod keeper;
mod keeper_error;
mod link;
mod mem_disk;
mod mem_door;
mod mem_keeper;
mod mem_link;
mod mem_sink;
mod mem_source;
mod slot;
mod std_input;
mod std_output;
mod store;
mod table_laws;
mod tcp_door;
mod tcp_link;
mod traits;

pub use cell::{Cell, Put, Reading};
pub use disk::Disk;
pub use door::Door;
pub use file_disk::FileDisk;
pub use keeper::{Keeper, read_cell};
pub use keeper_error::KeeperError;
pub use link::{Link, put_all};
pub use mem_disk::{Leave, MemDisk, Step};
pub use mem_door::MemDoor;
pub use mem_keeper::MemKeeper;
pub use mem_link::MemLink;
pub use mem_sink::MemSink;
pub use mem_source::MemSource;
pub use slot::Slot;
pub use std::alloc::AllocError as OutOfMemory;
pub use std_input::StdInput;
pub use std_output::StdOutput;
pub use store::{Store, Undo};
pub use table_laws::{batches_are_tables, one_key_is_read, prefixes_are_spans};
pub use tcp_door::TcpDoor;
pub use tcp_link::TcpLink;
pub use traits::{Failed, Sink, Source};

#[cfg(test)]
mod disk_tests;
#[cfg(test)]
mod tests;
