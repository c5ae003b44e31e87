ghost use Rattle.std.specs.Prelude.{◌≡◌, ◌↔◌, IsTrue};

use dw_norm::Kind;

/// What is known of a field: the kind of its values, whether they are indexed, and whether they are indexed
/// back to front too, which stands only with the first.
#[derive(Clone, Copy, Debug, PartialEq, Eq)]
pub struct FieldRule {
    pub kind: Kind,
    pub indexed: bool,
    pub reversed: bool,
    pub ghost ruled: { IsTrue reversed → IsTrue indexed },
}

impl FieldRule {
    ghost use Rattle.dw_dict.specs.Rules.{field_rule, Widens, widens};

    /// The rule of these parts, or none where values would be indexed back to front alone.
    pub fn of(kind: Kind, indexed: bool, reversed: bool) -> Option<FieldRule>
        ensures { result ≡ field_rule kind indexed reversed }
    {
        if reversed && !indexed {
            return None;
        }
        Some(FieldRule {
            kind,
            indexed,
            reversed,
        })
    }

    /// Whether values of the same kind are indexed at least as the old rule says.
    pub fn widens(&self, old: &FieldRule) -> bool
        ensures rule { IsTrue result ↔ Widens self.now old.now }
        ensures test { result ≡ widens self.now old.now }
    {
        self.kind == old.kind && (self.indexed || !old.indexed) && (self.reversed || !old.reversed)
    }
}
