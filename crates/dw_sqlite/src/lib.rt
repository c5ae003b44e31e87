//! A keeper of cells over a database, in memory or in a file.
#![tactic(auto)]

mod cause;
mod sql_keeper;
mod table;
mod within;
mod writing;

pub use sql_keeper::SqlKeeper;

#[cfg(test)]
mod tests;
