// The positions of a job as the walk takes them, and from which side on a residual is kept.
#![tactic(auto)]

pub mod least;
pub mod table;
