//! What no clause says: that the calls succeed, and what the edge does with readers and writers of
//! which std promises nothing.

mod edge;
mod memory;
