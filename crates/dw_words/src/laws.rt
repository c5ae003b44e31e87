//! What holds of all words. The functions do nothing: their contracts are laws.

ghost use Rattle.dw_words.specs.Laws.{OptionsAreSpelled, OrderIsFree};

/// Options are read alike in whatever way each is spelled, `--name=value` or `--name value`.
pub fn options_are_spelled()
    ensures { OptionsAreSpelled }
{}

/// The same options in another order are the same command.
pub fn order_is_free()
    ensures { OrderIsFree }
{}
