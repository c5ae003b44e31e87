//! An end of a range.

use dw_jexl::Word;

/// The text of an end, or where it is `*` alone no end at all.
#[derive(Debug, Drop)]
pub struct End {
    pub text: Word,
    pub is_open: bool,
}
