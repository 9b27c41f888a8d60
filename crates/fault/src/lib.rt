//! Faults: what is refused, where, and by which layer.
#![tactic(auto)]

pub mod book;
pub mod label;
pub mod plan;
pub mod report;
pub mod ticket;
