//! Search in one shard that resumes anywhere: the candidates of a query are found by the indexes alone, and only their
//! documents are read.
#![tactic(auto)]

mod ask;
mod building;
mod gaps;
mod laws;
mod reading;
mod scanning;
mod searching;
mod stop;
mod walking;

pub use ask::{Ask, Batch, Resume};
pub use dw_base::OutOfMemory;
pub use gaps::Gaps;
pub use laws::{
    answers_are_candidates, answers_are_seen, candidates_are_one_list, documents_are_views,
    leaves_find_the_seen, seen_ascend, trees_find_candidates, worlds_are_contents,
};
pub use scanning::scan_batch;
pub use searching::search;

#[cfg(test)]
mod partly_known_keys;
#[cfg(test)]
mod shard_tests;
#[cfg(test)]
mod tests;
