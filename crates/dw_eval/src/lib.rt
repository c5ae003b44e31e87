//! What a query means: bound by a dictionary, and evaluated on the values of an event that a reader sees.
#![tactic(auto)]

mod binding;
mod knowing;
mod laws;
mod leaf;
mod meeting;
mod naming;
mod nquery;
mod nview;
mod open_query;
mod satisfying;

pub use binding::{BindError, bind};
pub use dw_base::OutOfMemory;
pub use dw_nest::Truth;
pub use knowing::kleene;
pub use laws::{
    forms_are_of_values, forms_begin_so, holding_is_standing, indexes_know, named_fields_decide,
    negation_goes_inward, readings_are_bound_alike,
};
pub use meeting::{field_of, front_of, meets};
pub use naming::names;
pub use nquery::NQuery;
pub use nview::{Formed, NView};
pub use open_query::OpenQuery;
pub use satisfying::satisfies;

#[cfg(test)]
mod tests;
