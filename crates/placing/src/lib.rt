// Columns of places that are filled from the rows of an accepted set and its labels, and the table of the classes that it gives apart.

#![tactic(auto)]

pub mod apart;
pub mod heights;
pub mod reads;
pub mod sides;
