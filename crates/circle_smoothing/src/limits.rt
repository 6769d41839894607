//! The size within which homology is computed.

/// The most generators of a diagram whose homology is computed.
pub const GENERATORS: u64 = 4_194_304;
