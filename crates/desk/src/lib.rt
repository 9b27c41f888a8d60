//! The desk: it takes the lines of an input as tickets, makes the book's calls, and replies.
#![tactic(auto)]

pub mod input;
pub mod line;
mod ordering;
pub mod refusal;
pub mod reply;
mod replying;
mod serving;
