//! The limits on a request, each with one home.

/// The most bytes of a line.
pub const MAX_LINE: usize = 4_194_304;

/// The most types of a query, as they are written.
pub const MAX_TYPES: usize = 64;

/// The most events of a page.
pub const MAX_SIZE: u64 = 1000;

/// The greatest number of a query.
pub const MAX_NUMBER: u64 = 9_223_372_036_854_775_807;

/// The greatest number of a page.
pub const MAX_PAGE: u64 = 4_294_967_295;
