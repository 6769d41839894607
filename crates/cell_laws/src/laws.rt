//! What keeps the dimensions of complexes.

pub mod cells;
pub mod cubes;
pub mod deformed_cubes;
pub mod layers;
pub mod listings;
pub mod survivor_layers;
pub mod survivors;
pub mod worked;
pub mod worked_survivors;
