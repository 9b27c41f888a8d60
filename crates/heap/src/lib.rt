//! A heap of four children, over lent memory, by any order that a keeper answers.
#![tactic(auto)]

mod calls;
pub mod order;
mod sift;

pub use calls::{lower, pop_least, push};
