//! What all crates share: codes, diagrams, words and the named limits, and in `specs/` the
//! definitions of knots and homology on which every contract stands; general lemmas on lists, sums,
//! classes and matrices.
#![tactic(auto)]

mod acceptance;
mod bits;
mod classes;
mod code;
mod dart;
mod diagram;
mod face_count;
mod fault;
pub mod laws;
mod limits;
mod memory;
mod words;

pub use acceptance::{arcs_in, components_of, next_in};
pub use bits::{bit, ones};
pub use classes::{CLASS_MEMBERS, class_count, class_of, classes_of, is_least};
pub use code::{Crossing, RawCode};
pub use dart::{Dart, dart_at, dart_place, turned};
pub use diagram::Diagram;
pub use face_count::{FaceCount, count_faces};
pub use fault::CodeFault;
pub use limits::{
    ARCS, CIRCLES, COMPONENTS, CROSSINGS, EXPONENT, GREATEST_ARC, INPUT_BYTES, LOOPS, WORKERS,
};
pub use memory::NoMemory;
pub use words::Words;
