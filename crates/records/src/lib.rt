//! The records of the book's tables, and how they fit together.
#![tactic(auto)]

pub mod chain;
pub mod channel;
pub mod circuit;
pub mod state;
