use crate::nquery::NQuery;
use dw_dict::Dict;
use dw_event::{Days, Types};
use dw_vis::Auths;

/// A query as it was opened: whatever is taken in, granted or defined later, its answer is made of this.
#[derive(Debug, Drop)]
pub struct OpenQuery {
    /// Bound by the dictionary.
    pub query: NQuery,
    /// The rules of fields when it was opened.
    pub dict: Dict,
    /// The names of authorisations that it is for.
    pub auths: Auths,
    /// The last batch that it sees.
    pub snapshot: u64,
    pub days: Days,
    pub types: Types,
    /// How many events a page has.
    pub size: u32,
}
