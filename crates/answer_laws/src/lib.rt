//! What becomes of homology by the diagrams that `kh` answers, and by the diagram that it is given;
//! and that `kh-scan` answers as `kh` does.
#![tactic(auto)]

pub mod laws;
pub mod scans;
pub mod worked;
