//! The sizes within which the program works.

/// The most crossings of a diagram.
pub const CROSSINGS: usize = 20;

/// The most arcs of a diagram: each crossing has four ends of arcs, and each arc two ends.
pub const ARCS: usize = 2 * CROSSINGS;

/// The greatest number that a code keeps of an arc: a text may have any, and one above this is no
/// arc.
pub const GREATEST_ARC: usize = 255;

/// The most components and crossingless loops of a diagram, counted together.
pub const COMPONENTS: usize = 28;

/// The most circles of a state: one for each component or loop, and one more at most for each
/// crossing, which is a law.
pub const CIRCLES: usize = CROSSINGS + COMPONENTS;

/// The greatest quantum degree of a generator in size, and the greatest exponent of a polynomial:
/// the most circles, and two for each crossing, which is a law.
pub const EXPONENT: usize = CIRCLES + 2 * CROSSINGS;

/// The most crossingless loops of a text.
pub const LOOPS: usize = 8;

/// The most workers that share the blocks of a diagram.
pub const WORKERS: u32 = 64;

/// The most bytes of an input.
pub const INPUT_BYTES: usize = 65_536;
