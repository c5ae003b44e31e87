//! Why a text is refused.

ghost use Rattle.std.specs.Prelude.{◌≡◌};
ghost use Rattle.dw_vis.specs.declared.error.VisError.TheVariants.{OutOfMemory};

use std::alloc::AllocError;

/// The first rule, in this order, that a text breaks, or want of memory.
#[derive(Clone, Copy, Debug, PartialEq, Eq, Drop)]
pub enum VisError {
    /// The text has more than 512 bytes.
    TooLong,
    /// Outside quotes, somewhere more than 32 parentheses are open. This is found in a walk over the text
    /// from left to right, which ends at a closing parenthesis where none is open, and in which a `\` inside
    /// quotes takes the next byte with it, whatever it is.
    TooDeep,
    /// The text is not UTF-8, or not in the grammar, not even if `&` and `|` may be mixed.
    Syntax,
    /// Somewhere `&` and `|` are mixed at one level.
    Mixed,
    OutOfMemory,
}

impl From<AllocError> for VisError {
    ghost from_gives = { λ _ e. e ≡ OutOfMemory };

    fn from(_e: AllocError) -> VisError {
        VisError::OutOfMemory
    }
}
