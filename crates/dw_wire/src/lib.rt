//! The texts of the service: which request a line is, and the text of a reply.
#![tactic(auto)]

mod laws;
mod limits;
mod reading;
mod reply;
mod request;
mod route;
mod writing;

pub use dw_base::OutOfMemory;
pub use dw_groups::Records;
pub use dw_jexl::{Query, QueryRule};
pub use laws::queries_are_spelt;
pub use limits::MAX_LINE;
pub use reading::{read_line, read_route};
pub use reply::Reply;
pub use request::{Request, Why};
pub use route::Route;
pub use writing::{memory_line, write_reply};

#[cfg(test)]
mod tests;
