//! Worked examples: each definition that the homology table rests on, computed on a small known
//! input, most often the left-handed trefoil; and the homology tables and the state sums of known
//! diagrams. Each is the contract of a function that does nothing; a clause is named for the
//! definition that it shows.

pub mod circles;
pub mod classes;
pub mod codes;
pub mod differential;
pub mod generators;
pub mod link_signs;
pub mod polynomials;
pub mod ranks;
pub mod rows;
pub mod signs;
pub mod tables;
pub mod terms;
