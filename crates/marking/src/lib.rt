// Bits of pairs of terms, set by the classes of the terms, by disequalities, and for all pairs that stand as far apart as two places.

#![tactic(auto)]

pub mod base;
mod between;
pub mod bits;
pub mod distance;
mod far;
mod indexed;
mod known;
pub mod notes;
mod single;
