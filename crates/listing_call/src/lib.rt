// The walk that lists the plate types and cuts of a job into lent buffers, and the listing call.
#![tactic(auto)]

pub mod call;
pub mod entry;
pub mod sizes;
pub mod walk;
