//! The plan file: its header, its four sections and their records.
#![tactic(auto)]

mod checks;
pub mod header;
mod loading;
pub mod reader;
pub mod record;
pub mod window;
