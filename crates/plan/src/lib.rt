// The plan and the prices of a job.

#![tactic(auto)]
