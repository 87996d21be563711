// The job: its stage mode, its board sizes, its item types, the counters of the model, and admission; verdicts, sizes and lent buffers, which every call shares.
#![tactic(auto)]

pub mod admit;
pub mod counters;
pub mod demands;
pub mod head;
pub mod item;
pub mod job_read;
pub mod lent;
pub mod mode;
pub mod position;
pub mod refused;
pub mod size;
pub mod sizes;
pub mod words;
