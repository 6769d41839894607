//! Locks: that the calls come back, and that two threads at one lock both get on.

mod numbers;
mod threads;
