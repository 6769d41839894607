//! Tests of the cube: what no clause says of circles, blocks, cancellations, workers, tables,
//! reduced tables, logs and polynomials.
#![tactic(auto)]

#[cfg(test)]
mod blocks;
#[cfg(test)]
mod cancellations;
#[cfg(test)]
mod column_blocks;
#[cfg(test)]
mod column_reductions;
#[cfg(test)]
mod cores;
#[cfg(test)]
mod known_tables;
#[cfg(test)]
mod locks;
#[cfg(test)]
mod logs;
#[cfg(test)]
mod made_complexes;
#[cfg(test)]
mod polynomials;
#[cfg(test)]
mod reduced;
#[cfg(test)]
mod shared_blocks;
#[cfg(test)]
mod sparse_complexes;
#[cfg(test)]
mod states;
#[cfg(test)]
mod workers;
