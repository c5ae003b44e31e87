use dw_base::{Bytes, Listed, Text};
use dw_dict::Dict;
use dw_eval::NQuery;
use dw_event::{Shown, Types};
use dw_key::DocKey;
use dw_vis::Auths;

/// What is asked of a shard.
#[derive(Debug, Drop)]
pub struct Ask {
    /// Bound by the dictionary.
    pub query: NQuery,
    /// The rules of fields.
    pub dict: Dict,
    /// The names of authorisations that it is for.
    pub auths: Auths,
    /// The last batch that it sees.
    pub snapshot: u64,
    pub types: Types,
}

/// Where a search of a shard goes on: all that is kept between two batches.
#[derive(Debug, Drop)]
pub struct Resume {
    pub shard: Text,
    /// The last key that was searched, which may be one that no event has; None before the first.
    pub after: Option<DocKey>,
}

/// What a search of a shard came to.
#[derive(Debug, Drop)]
pub struct Batch {
    /// The events that answer, in the order of their keys.
    pub found: Listed<Shown>,
    pub resume: Resume,
    /// No candidate is left.
    pub ended: bool,
    /// A place that is not covered, without which the search does not go on.
    pub missing: Option<Bytes>,
}
