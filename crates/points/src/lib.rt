// Points: the places of terms, in chains by class and by place, and terms that stand for others. Public for the crates `differences`,
// `placing`, `questions` and `columns`.

#![tactic(auto)]

pub mod chained;
pub mod chains;
pub mod homes;
pub mod leads;
pub mod places;
pub mod sides;
