//! Kinks and fingers, added and dropped: the codes that result, and what they keep.
#![tactic(auto)]

pub mod circles;
pub mod drops;
pub mod faces;
pub mod fingers;
pub mod kinks;
pub mod worked_drops;
pub mod worked_fingers;
pub mod worked_kinks;
