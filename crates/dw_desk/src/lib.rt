//! The state machine of the service: what is held, what each caller is granted and asks, and the answer to
//! each request.
#![tactic(auto)]

mod caller;
mod callers;
mod desk;
mod grants;
mod kept_query;
mod laws;
mod loading;
mod storing;

pub use desk::Desk;
pub use dw_base::OutOfMemory;
pub use dw_event::pages_are_the_answer;
pub use dw_page::Settings;
pub use dw_wire::{Records, Reply, Request, Why};
pub use laws::{
    replies_are_isolated, sessions_keep, sessions_keep_queries, sessions_tell, steps_keep,
    steps_keep_queries, steps_tell,
};

#[cfg(test)]
mod tests;
