// The model of a job: plates, what may be cut from them, what a cut leaves, and their records in lent buffers.
#![tactic(auto)]

pub mod cut;
pub mod plate;
pub mod words;
