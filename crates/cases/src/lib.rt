// The proved table of cases: definitions and proofs alone.

#![tactic(auto)]
