//! The limits on what comes in, each with one home. All are counts of bytes where nothing else is said.

/// The most bytes of the name of a field or of a type.
pub const MAX_NAME: usize = 64;

/// The most bytes of a raw value.
pub const MAX_VALUE: usize = 4_096;

/// The most cells of a record.
pub const MAX_CELLS: usize = 4_096;

/// The most canonical bytes of a record.
pub const MAX_CANONICAL: usize = 65_536;

/// The most characters of a caller.
pub const MAX_CALLER: usize = 128;

/// The most names of authorisations in a list.
pub const MAX_NAMES: usize = 256;

/// The most bytes of a visibility, and of the name of an authorisation.
pub const MAX_VISIBILITY: usize = 512;
