//! Kinds of cost: how a path's cost is built, from left to right, and compared.
#![tactic(auto)]

pub mod charge;
pub mod fee;
pub mod few;
pub mod kind;
pub mod sum;
pub mod tally;
pub mod worst;
