//! Slips: what each node's cabinet is told to switch along a standing path.
#![tactic(auto)]

pub mod setting;
pub mod writing;
