ghost use Rattle.std.specs.Prelude.{◌≡◌, Some, None, MatchOption};
ghost use Rattle.std.specs.Option.{option_map};
ghost use Rattle.dw_tablet.specs.Values.{value_at, is_only, is_of, shown_by};

use crate::said::Said;
use crate::stored::Stored;
use dw_event::Types;
use dw_key::{DType, DocKey};
use dw_vis::Auths;

/// Which cells of the field index are asked for: those of a field that a reader sees, of batches up to a
/// snapshot.
#[derive(Clone, Copy)]
pub struct Asked<'t> {
    pub(crate) field: &'t str,
    pub(crate) auths: &'t Auths,
    pub(crate) snapshot: u64,
    /// The one value that is asked for, or any.
    pub(crate) only: Option<&'t str>,
    /// The types of documents that are asked for, or any.
    pub(crate) types: Option<&'t Types>,
}

/// The value that a key says of the field, where a reader sees it.
fn value_of<'t>(
    key: &'t Stored,
    field: &str,
    auths: &Auths,
    snapshot: u64,
) -> Option<(&'t str, DocKey)>
    ensures { MatchOption result (value_at field.now auths.now snapshot key.now ≡ None) (λ v. value_at field.now auths.now snapshot key.now ≡ Some (v.0.now, v.1)) }
{
    match key.said() {
        Said::OfIndex(said) => {
            if said.field.as_str() == field && said.batch <= snapshot && said.vis.sees(auths) {
                Some((said.value.as_str(), said.doc))
            } else {
                None
            }
        }
        Said::OfEvent(_) => None,
        Said::Nothing => None,
    }
}

impl Asked<'_> {
    /// Whether a value is the one that is asked for.
    fn is_only(&self, value: &str) -> bool
        ensures { result ≡ is_only (option_map (λ v. v.now) self.now.only) value.now }
    {
        match self.only {
            None => true,
            Some(only) => value == only,
        }
    }

    /// Whether a type is asked for.
    fn is_of(&self, dtype: &DType) -> bool
        ensures { result ≡ is_of (option_map (λ t. t.now) self.now.types) dtype.now }
    {
        match self.types {
            None => true,
            Some(types) => types.want(dtype),
        }
    }

    /// The value that a key says, where all of it is asked for. Takes no memory.
    pub(crate) fn value_of<'k>(&self, key: &'k Stored) -> Option<(&'k str, DocKey)>
        ensures { MatchOption result (shown_by self.now key.now ≡ None) (λ v. shown_by self.now key.now ≡ Some (v.0.now, v.1)) }
    {
        match value_of(key, self.field, self.auths, self.snapshot) {
            None => None,
            Some((value, doc)) => {
                if self.is_only(value) && self.is_of(&doc.dtype) {
                    Some((value, doc))
                } else {
                    None
                }
            }
        }
    }
}
