//! What holds of all normal forms. The functions do nothing: their contracts are laws.

ghost use Rattle.dw_norm.specs.Laws.{NumbersKeepOrder, InstantsKeepOrder, AddressesKeepOrder, NinesComplement, InstantsHaveMoments, NoZeroIsMade, NoZeroIsReversed, ReversalTakesBack, EndsAreFrontsReversed, TextsAreReadWhole, DigitsSpellNumbers};

/// The normal forms of two numbers compare as lists of unsigned bytes as the numbers do.
pub fn numbers_keep_order()
    ensures { NumbersKeepOrder }
{}

/// The normal forms of two dates compare as their instants do.
pub fn instants_keep_order()
    ensures { InstantsKeepOrder }
{}

/// The normal forms of two addresses compare as the addresses do.
pub fn addresses_keep_order()
    ensures { AddressesKeepOrder }
{}

/// The digits of a magnitude, each taken from 9, are those of the largest magnitude less it.
pub fn nines_complement()
    ensures { NinesComplement }
{}

/// The moment of an instant is the one day and second that have that instant.
pub fn instants_have_moments()
    ensures { InstantsHaveMoments }
{}

/// A normal form has a byte 0 only where its text has one.
pub fn no_zero_is_made()
    ensures { NoZeroIsMade }
{}

/// A text has no byte 0 from its end back where it has none.
pub fn no_zero_is_reversed()
    ensures { NoZeroIsReversed }
{}

/// A text reversed twice is the text.
pub fn reversal_takes_back()
    ensures { ReversalTakesBack }
{}

/// A text ends with another exactly where its reversal begins with the other's.
pub fn ends_are_fronts_reversed()
    ensures { EndsAreFrontsReversed }
{}

/// What is read of a date, a number or an address leaves no byte out.
pub fn texts_are_read_whole()
    ensures { TextsAreReadWhole }
{}

/// The digits of a number spell it.
pub fn digits_spell_numbers()
    ensures { DigitsSpellNumbers }
{}
