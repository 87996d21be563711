// The engine for its hosts: each call as a function with the calling convention of C. A slice is passed as a pointer and then its length in words or bytes,
// `answer` as a pointer to three words, that of the unfolding to four.
#![tactic(auto)]

pub mod calls;
pub mod text_calls;
