use dw_base::Text;
use dw_dict::FieldRule;
use dw_event::{Days, Types};
use dw_groups::Records;
use dw_jexl::{Query, QueryRule};
use dw_vis::Auths;

/// What a line asks for.
#[derive(Debug, Drop)]
pub enum Request {
    /// Sets the rule of a field.
    Define {
        field: Text,
        rule: FieldRule,
    },
    /// Replaces the names that the caller is granted.
    Grant {
        caller: Text,
        auths: Auths,
    },
    /// Takes records in, as far as they are new.
    Ingest {
        records: Records,
    },
    /// Opens a query of the events that are held now, of these days and types, for the granted names, or for
    /// those of them that are asked for.
    Create {
        caller: Text,
        query: Query,
        days: Days,
        types: Types,
        size: u32,
        auths: Option<Auths>,
    },
    /// Asks for a page, counted from 1, of an open query of the caller.
    Page {
        caller: Text,
        number: u64,
        page: u32,
    },
    /// Drops an open query of the caller.
    Close {
        caller: Text,
        number: u64,
    },
}

/// Why a line is no request: the first of these, in this order, that holds.
#[derive(Clone, Copy, Debug, PartialEq, Eq)]
pub enum Why {
    /// The line has more than 4,194,304 bytes.
    Line,
    /// The line is no text of JSON, by RFC 8259.
    Json,
    /// It is no object of the members of a request, each of its JSON type.
    Shape,
    /// The caller is not 1 to 128 visible ASCII characters.
    Caller,
    /// The name of the field breaks its rule.
    Field,
    /// There is no such kind, or the field is to be reversed without being indexed.
    Kind,
    /// A name of an authorisation has not 1 to 512 bytes or a byte 0, or there are more than 256.
    Auths,
    /// There are more than 10,000 records.
    Records,
    /// The text of a query breaks this rule first.
    Query { rule: QueryRule },
    /// A date names no day, or the first day is after the last.
    Days,
    /// A type breaks its rule, or there are not 1 to 64 of them.
    Types,
    /// The size of a page is not 1 to 1,000.
    Size,
    /// The number of the query is not 1 to 2^63 - 1.
    Number,
    /// The number of the page is not 1 to 4,294,967,295.
    Page,
    /// A literal is refused by the kind of its field, or holds a byte 0, or a wildcard is asked of a field of
    /// numbers, dates or addresses.
    Literal,
}
