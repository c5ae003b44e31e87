//! What holds of all bound queries. The functions do nothing: their contracts are laws.

ghost use Rattle.dw_eval.specs.Meeting.{FormsBeginSo};
ghost use Rattle.dw_eval.specs.Laws.{DeMorgan, FormsAreOfValues, IndexesKnow, HoldsIsStanding, NamedFieldsDecide, ReadingsAreBoundAlike};

/// A leaf on the normal forms of a view is met exactly where some value of its field has a normal form that
/// meets it.
pub fn forms_are_of_values()
    ensures { FormsAreOfValues }
{}

/// The Not of an And is satisfied as the Or of the Nots is, and the Not of an Or as the And of them.
pub fn negation_goes_inward()
    ensures { DeMorgan }
{}

/// Where the field of each leaf is indexed, `kleene` is Yes or No as `satisfies` is true or false.
pub fn indexes_know()
    ensures { IndexesKnow }
{}

/// A form holds a text exactly where the text's bytes stand somewhere in it, one behind another.
pub fn holding_is_standing()
    ensures { HoldsIsStanding }
{}

/// Values of fields that a query does not name do not change whether it is satisfied.
pub fn named_fields_decide()
    ensures { NamedFieldsDecide }
{}

/// The canonical text of a query is read as a query that is bound alike, where it keeps the limits on length
/// and depth.
pub fn readings_are_bound_alike()
    ensures { ReadingsAreBoundAlike }
{}

/// A normal form that meets a leaf begins as `front_of` says.
pub fn forms_begin_so()
    ensures { FormsBeginSo }
{}
