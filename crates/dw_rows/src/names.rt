ghost use Rattle.std.specs.Prelude.{◌≡◌, Some, IfOk, option_map};
ghost use Rattle.dw_base.specs.FieldNames.{is_field_name as is_name};
ghost use Rattle.dw_rows.specs.Values.{guarded};
ghost use Rattle.dw_rows.specs.Entries.{field_of};

use crate::OutOfMemory;
use crate::texts::text_in;
use dw_base::{MAX_NAME, Text, is_field_name};
use std::alloc::Global;

#[tactic(auto, using(crate::proofs::FieldNames::is_text, crate::proofs::FieldNames::is_few))]
fn names_field(name: &[u8]) -> Option<&str>
    ensures { option_map (λ s. s.now) result ≡ guarded (is_name name.now) (Some name.now) }
{
    if name.len() > MAX_NAME {
        return None;
    }
    let text = text_in(name)?;
    if !is_field_name(text) {
        return None;
    }
    Some(text)
}

/// The field of a name, with its letters in upper case, or None where the name breaks its rule.
pub fn read_field(alloc: Global, name: &[u8]) -> Result<Option<Text>, OutOfMemory>
    ensures { IfOk result (λ o. o ≡ field_of name.now) }
{
    match names_field(name) {
        Some(text) => Ok(Some(Text::from_string(text.to_ascii_uppercase(alloc)?))),
        None => Ok(None),
    }
}
