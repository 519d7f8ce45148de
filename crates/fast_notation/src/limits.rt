//! The limits on the size of a template set.

/// The most references that lead from one template to the next, and the most groups and sequences that nest.
pub const NESTING_LIMIT: u32 = 64;

/// The most nodes of a set, with its references expanded.
pub const NODE_LIMIT: u32 = 65_536;

/// The most presence bits of a segment: seven for each byte of the longest presence map.
pub const SEGMENT_LIMIT: usize = 1022;
