ghost use Rattle.std.specs.Prelude.{◌≡◌, ◌≤◌, IfOk, min, vec_len};
ghost use Rattle.std.specs.Option.{option_copied};
ghost use Rattle.dw_jexl.specs.declared.query.Query.TheVariants as query;
ghost use Rattle.dw_jexl.specs.Children.{child_of, children_of};
ghost use Rattle.dw_jexl.specs.Grammar.{leaves};

use crate::OutOfMemory;
use crate::word::Word;
use sqlite_items::{Boxed, Items};
use std::alloc::Global;

/// How a field is compared with a literal.
#[derive(Clone, Copy, Debug, PartialEq, Eq, Drop)]
pub enum Op {
    Eq,
    Ne,
    Lt,
    Le,
    Gt,
    Ge,
}

/// A query.
#[derive(Debug, Drop)]
pub enum Query {
    Cmp {
        field: Word,
        op: Op,
        literal: Word,
    },
    Pattern {
        field: Word,
        negated: bool,
        lead: bool,
        trail: bool,
        text: Word,
    },
    Bounded {
        field: Word,
        low: Word,
        low_open: bool,
        high: Word,
        high_open: bool,
    },
    Not(Boxed<Query>),
    And(Items<Query>),
    Or(Items<Query>),
}

impl Query {
    /// A field compared with a literal.
    pub fn cmp(field: Word, op: Op, literal: Word) -> Query
        ensures { result ≡ query.Cmp field op literal }
    {
        Query::Cmp { field, op, literal }
    }

    /// A field matched with a text, with a wildcard before it, behind it, or both.
    pub fn pattern(field: Word, negated: bool, lead: bool, trail: bool, text: Word) -> Query
        ensures { result ≡ query.Pattern field negated lead trail text }
    {
        Query::Pattern {
            field,
            negated,
            lead,
            trail,
            text,
        }
    }

    /// A field between two ends, of which an open one is left out.
    pub fn bounded(field: Word, low: Word, low_open: bool, high: Word, high_open: bool) -> Query
        ensures { result ≡ query.Bounded field low low_open high high_open }
    {
        Query::Bounded {
            field,
            low,
            low_open,
            high,
            high_open,
        }
    }

    /// The negation of a query.
    pub fn not(alloc: Global, child: Query) -> Result<Query, OutOfMemory>
        ensures { IfOk result (λ q. q ≡ query.Not child) }
    {
        Ok(Query::Not(Boxed::new(alloc, child)?))
    }

    /// At least two children, in their order.
    pub fn and(children: Vec<Query>) -> Query
        requires { 2 ≤ vec_len children }
        ensures { result ≡ query.And children.items }
    {
        Query::And(Items::from_vec(children))
    }

    /// At least two children, in their order.
    pub fn or(children: Vec<Query>) -> Query
        requires { 2 ≤ vec_len children }
        ensures { result ≡ query.Or children.items }
    {
        Query::Or(Items::from_vec(children))
    }

    /// The child of a Not.
    pub fn child(&self) -> Option<&Query>
        ensures { option_copied result ≡ child_of self.now }
    {
        match self {
            Query::Not(child) => Some(child.get()),
            _ => None,
        }
    }

    /// The children of an And or Or, in their order; of another query none.
    pub fn children(&self) -> &[Query]
        ensures { result.now ≡ children_of self.now }
    {
        match self {
            Query::And(children) => children.as_slice(),
            Query::Or(children) => children.as_slice(),
            _ => &[],
        }
    }

    /// An equal query.
    pub fn copy(&self, alloc: Global) -> Result<Query, OutOfMemory>
        ensures { IfOk result (λ q. q ≡ self.now) }
    {
        match self {
            Query::Cmp { field, op, literal } => {
                let field = field.copy()?;
                let literal = literal.copy()?;
                Ok(Query::Cmp {
                    field,
                    op: *op,
                    literal,
                })
            }
            Query::Pattern {
                field,
                negated,
                lead,
                trail,
                text,
            } => {
                let field = field.copy()?;
                let text = text.copy()?;
                Ok(Query::Pattern {
                    field,
                    negated: *negated,
                    lead: *lead,
                    trail: *trail,
                    text,
                })
            }
            Query::Bounded {
                field,
                low,
                low_open,
                high,
                high_open,
            } => {
                let field = field.copy()?;
                let low = low.copy()?;
                let high = high.copy()?;
                Ok(Query::Bounded {
                    field,
                    low,
                    low_open: *low_open,
                    high,
                    high_open: *high_open,
                })
            }
            Query::Not(child) => {
                let child = child.get().copy(alloc)?;
                Ok(Query::Not(Boxed::new(alloc, child)?))
            }
            Query::And(children) => {
                let mut out = Items::new(alloc);
                for child in children.as_slice() {
                    out.push(child.copy(alloc)?)?;
                }
                Ok(Query::And(out))
            }
            Query::Or(children) => {
                let mut out = Items::new(alloc);
                for child in children.as_slice() {
                    out.push(child.copy(alloc)?)?;
                }
                Ok(Query::Or(out))
            }
        }
    }

    /// How many leaves it has, of which at most 257 are counted.
    pub fn leaves(&self) -> u64
        ensures { result ≡ min (leaves self.now) 257 }
    {
        match self {
            Query::Cmp { .. } => 1,
            Query::Pattern { .. } => 1,
            Query::Bounded { .. } => 1,
            Query::Not(child) => child.get().leaves(),
            Query::And(children) => {
                let mut sum = 0u64;
                for child in children.as_slice() {
                    sum = (sum + child.leaves()).min(257);
                }
                sum
            }
            Query::Or(children) => {
                let mut sum = 0u64;
                for child in children.as_slice() {
                    sum = (sum + child.leaves()).min(257);
                }
                sum
            }
        }
    }
}
