ghost use Rattle.std.specs.Prelude.{◌≡◌, IfOk};
ghost use Rattle.dw_rows.specs.Entries.{field_of};
ghost use Rattle.dw_wire.specs.ReadLine.{kind_of, rule_of};

use crate::OutOfMemory;
use dw_base::{Text, is_field_name};
use dw_dict::FieldRule;
use dw_norm::Kind;
use std::alloc::Global;

fn kind_named(name: &str) -> Option<Kind>
    ensures { result ≡ kind_of name.now }
{
    if name == "TEXT" {
        return Some(Kind::Text);
    }
    if name == "NOOP" {
        return Some(Kind::Noop);
    }
    if name == "NUMBER" {
        return Some(Kind::Number);
    }
    if name == "DATE" {
        return Some(Kind::Date);
    }
    if name == "IPV4" {
        return Some(Kind::Ipv4);
    }
    None
}

/// The rule of a kind by its name, to be reversed only where it is indexed.
pub fn read_rule(kind: &str, indexed: bool, reversed: bool) -> Option<FieldRule>
    ensures { result ≡ rule_of kind.now indexed reversed }
{
    let kind = kind_named(kind)?;
    FieldRule::of(kind, indexed, reversed)
}

/// The field of a name, in upper case.
pub fn read_field(alloc: Global, name: &str) -> Result<Option<Text>, OutOfMemory>
    ensures { IfOk result (λ o. o ≡ field_of name.now) }
{
    if !is_field_name(name) {
        return Ok(None);
    }
    let field = name.to_ascii_uppercase(alloc)?;
    Ok(Some(Text::from_string(field)))
}
