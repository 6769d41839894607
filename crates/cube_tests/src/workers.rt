//! Workers: that the calls come back, that workers work side by side and do the turns, and how
//! often they call the gate.

mod diagrams;
mod gates;
mod one_seat;
mod side_by_side;
mod tables;
