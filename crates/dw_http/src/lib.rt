//! HTTP/1.1 conversations (RFC 9112) over a link, for any service: heads are read, bodies are taken by
//! their length, and each message is answered in turn.
#![tactic(auto)]

mod answering;
mod fields;
mod head;
mod intake;
mod lengths;
mod lines;
mod looking;
mod response;
mod scan;
mod service;
mod talk;
mod why;

pub use response::write_response;
pub use service::{Caller, HttpAsk, Service};
pub use std::alloc::AllocError as OutOfMemory;
pub use talk::{Ended, converse};
pub use why::HttpWhy;

#[cfg(test)]
mod tests;
