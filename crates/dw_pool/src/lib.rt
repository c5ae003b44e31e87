//! Jobs run in waves of threads, and the counter from which the threads claim them.
//!
//! A wave gives its workers no fixed jobs: each claims the next number until there is none. There is no lock, and the
//! thread that joins the workers is the only one that waits. Where no thread can be made, the jobs run one after another.
#![tactic(auto)]

mod claims;
mod drawing;
mod wave;

pub use claims::{Claimed, Claims, Pass, Unclosed};
pub use dw_base::OutOfMemory;
pub use wave::{Gate, Job, OpenGate, run_wave};

/// Numbers of jobs.
pub type Numbers = dw_base::Listed<u32>;

#[cfg(test)]
mod tests;
