//! Tests of codes and their texts: what no clause says of readers, printers, acceptance,
//! components, faces, moves, edits, scripts, braids, drawings, tables and words.
#![tactic(auto)]

#[cfg(test)]
mod acceptance;
#[cfg(test)]
mod braids;
#[cfg(test)]
mod components;
#[cfg(test)]
mod degenerate_moves;
#[cfg(test)]
mod drawings;
#[cfg(test)]
mod edits;
#[cfg(test)]
mod faces;
#[cfg(test)]
mod gauss_texts;
#[cfg(test)]
mod json_texts;
#[cfg(test)]
mod mirrors;
#[cfg(test)]
mod moves;
#[cfg(test)]
mod pd_texts;
#[cfg(test)]
mod plain_acceptance;
#[cfg(test)]
mod renumbering;
#[cfg(test)]
mod scripts;
#[cfg(test)]
mod tables;
#[cfg(test)]
mod tokens;
#[cfg(test)]
mod values;
#[cfg(test)]
mod words;
