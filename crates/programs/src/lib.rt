// What the two programs share: the parts in which they read their input, and the input itself.
#![tactic(auto)]

pub mod input;
pub mod parts;
#[cfg(test)]
mod tests;
pub mod text;
