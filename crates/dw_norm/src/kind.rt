ghost use Rattle.std.specs.Prelude.{◌≡◌, string_bytes, IfOk};
ghost use Rattle.std.specs.Option.{option_map};
ghost use Rattle.dw_norm.specs.Unchanged.{unless_empty};
ghost use Rattle.dw_norm.specs.Normal.{norm};

use crate::OutOfMemory;
use crate::address::normal_address;
use crate::date::normal_date;
use crate::folding::normal_text;
use crate::number::normal_number;
use std::alloc::Global;

/// What the values of a field are, which says how they compare.
#[derive(Clone, Copy, Debug, PartialEq, Eq)]
pub enum Kind {
    /// Words of people, compared without case and accents.
    Text,
    /// Texts that compare by their bytes as they are.
    Noop,
    /// Decimal numbers.
    Number,
    /// Days and instants.
    Date,
    /// Addresses of the internet protocol, version 4.
    Ipv4,
}

/// The normal form of a text for a kind, in UTF-8, or none where the kind does not read the text.
/// Takes time linear in the text.
pub fn normal(alloc: Global, kind: Kind, raw: &str) -> Result<Option<String>, OutOfMemory>
    ensures { IfOk result (λ r. option_map string_bytes r ≡ norm kind raw.now) }
{
    match kind {
        Kind::Text => normal_text(alloc, raw),
        Kind::Noop => unchanged(alloc, raw),
        Kind::Number => normal_number(alloc, raw.as_bytes()),
        Kind::Date => normal_date(alloc, raw.as_bytes()),
        Kind::Ipv4 => normal_address(alloc, raw.as_bytes()),
    }
}

/// The text itself, or none where it is empty.
fn unchanged(alloc: Global, raw: &str) -> Result<Option<String>, OutOfMemory>
    ensures { IfOk result (λ r. option_map string_bytes r ≡ unless_empty raw.now) }
{
    if raw.is_empty() {
        return Ok(None);
    }
    Ok(Some(String::from_str(alloc, raw)?))
}
