ghost use Rattle.std.specs.Prelude.{◌≡◌, IfOk};

use crate::OutOfMemory;
use dw_base::Text;
use dw_dict::FieldRule;
use sqlite_items::{Boxed, Items};
use std::alloc::Global;

/// A query bound by a dictionary: each leaf has the rule of its field, and normal forms by the field's
/// kind. An edge is true where the end itself meets the leaf.
#[derive(Debug, Drop)]
pub enum NQuery {
    Equal {
        field: Text,
        rule: FieldRule,
        value: Text,
    },
    Below {
        field: Text,
        rule: FieldRule,
        value: Text,
        edge: bool,
    },
    Above {
        field: Text,
        rule: FieldRule,
        value: Text,
        edge: bool,
    },
    Between {
        field: Text,
        rule: FieldRule,
        low: Text,
        low_edge: bool,
        high: Text,
        high_edge: bool,
    },
    Starts {
        field: Text,
        rule: FieldRule,
        text: Text,
    },
    Ends {
        field: Text,
        rule: FieldRule,
        text: Text,
    },
    Holds {
        field: Text,
        rule: FieldRule,
        text: Text,
    },
    Not(Boxed<NQuery>),
    And(Items<NQuery>),
    Or(Items<NQuery>),
}

impl NQuery {
    /// An equal query of its own.
    pub fn copy(&self, alloc: Global) -> Result<NQuery, OutOfMemory>
        ensures { IfOk result (λ q. q ≡ self.now) }
    {
        match self {
            NQuery::Equal { field, rule, value } => Ok(NQuery::Equal {
                field: field.copy()?,
                rule: *rule,
                value: value.copy()?,
            }),
            NQuery::Below {
                field,
                rule,
                value,
                edge,
            } => Ok(NQuery::Below {
                field: field.copy()?,
                rule: *rule,
                value: value.copy()?,
                edge: *edge,
            }),
            NQuery::Above {
                field,
                rule,
                value,
                edge,
            } => Ok(NQuery::Above {
                field: field.copy()?,
                rule: *rule,
                value: value.copy()?,
                edge: *edge,
            }),
            NQuery::Between {
                field,
                rule,
                low,
                low_edge,
                high,
                high_edge,
            } => Ok(NQuery::Between {
                field: field.copy()?,
                rule: *rule,
                low: low.copy()?,
                low_edge: *low_edge,
                high: high.copy()?,
                high_edge: *high_edge,
            }),
            NQuery::Starts { field, rule, text } => Ok(NQuery::Starts {
                field: field.copy()?,
                rule: *rule,
                text: text.copy()?,
            }),
            NQuery::Ends { field, rule, text } => Ok(NQuery::Ends {
                field: field.copy()?,
                rule: *rule,
                text: text.copy()?,
            }),
            NQuery::Holds { field, rule, text } => Ok(NQuery::Holds {
                field: field.copy()?,
                rule: *rule,
                text: text.copy()?,
            }),
            NQuery::Not(child) => {
                let child = child.get().copy(alloc)?;
                Ok(NQuery::Not(Boxed::new(alloc, child)?))
            }
            NQuery::And(children) => {
                let mut out = Items::new(alloc);
                for child in children.as_slice() {
                    out.push(child.copy(alloc)?)?;
                }
                Ok(NQuery::And(out))
            }
            NQuery::Or(children) => {
                let mut out = Items::new(alloc);
                for child in children.as_slice() {
                    out.push(child.copy(alloc)?)?;
                }
                Ok(NQuery::Or(out))
            }
        }
    }
}
