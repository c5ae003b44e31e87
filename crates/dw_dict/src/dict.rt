ghost use Rattle.std.specs.Prelude.{◌≡◌, IfOk, OnOk, OnErr};
ghost use Rattle.std.specs.FinMap as map;
ghost use Rattle.dw_dict.specs.Dictionary.{of_entries, rule_of, undefined as undefined_rule};

use crate::OutOfMemory;
use crate::rule::FieldRule;
use dw_norm::Kind;
use std::alloc::Global;
use std::collections::BTreeMap;
use std::marker::Model;

/// The rules of fields, by their names as they are given.
#[derive(Debug, Drop)]
pub struct Dict {
    alloc: Global,
    rules: BTreeMap<String, FieldRule>,
}

impl Model for Dict {
    ghost use Rattle.dw_dict.specs.Dictionary.{Dictionary, dictionary_code, of_entries};

    ghost Value = { Dictionary };

    ghost coded = { dictionary_code };

    ghost view = { λ d. of_entries d.rules.entries };
}

impl Dict {
    /// With no field. Takes no memory.
    pub fn new(alloc: Global) -> Dict
        ensures { result ≡ map.empty }
    {
        Dict {
            alloc,
            rules: BTreeMap::new(alloc),
        }
    }

    /// Sets the rule of a field, in place of the one that it had. After an error each field is as before.
    pub fn define(&mut self, field: &str, rule: FieldRule) -> Result<(), OutOfMemory>
        ensures ok { OnOk result (self.new ≡ map.insert self.old field.now rule) }
        ensures err { OnErr result (self.new ≡ self.old) }
    {
        put(self.alloc, &mut self.rules, field, rule)
    }

    /// The rule of a field: where none was set, TEXT, not indexed and not reversed.
    pub fn look(&self, field: &str) -> FieldRule
        ensures { result ≡ rule_of self.now field.now }
    {
        self.rules.get(field).copied().unwrap_or(undefined())
    }

    /// An equal dictionary of its own.
    pub fn copy(&self) -> Result<Dict, OutOfMemory>
        ensures { IfOk result (λ d. d ≡ self.now) }
    {
        let rules = self.rules.clone()?;
        Ok(Dict {
            alloc: self.alloc,
            rules,
        })
    }
}

/// The rule of a field that was not defined.
fn undefined() -> FieldRule
    ensures { result ≡ undefined_rule }
{
    FieldRule {
        kind: Kind::Text,
        indexed: false,
        reversed: false,
    }
}

/// Sets the rule of a field among others.
fn put(
    alloc: Global,
    rules: &mut BTreeMap<String, FieldRule>,
    field: &str,
    rule: FieldRule,
) -> Result<(), OutOfMemory>
    ensures ok { OnOk result (of_entries rules.new.entries ≡ map.insert (of_entries rules.old.entries) field.now rule) }
    ensures err { OnErr result (rules.new.entries ≡ rules.old.entries) }
{
    let name = String::from_str(alloc, field)?;
    match rules.insert(name, rule) {
        Ok(_) => Ok(()),
        Err(_) => Err(OutOfMemory),
    }
}
