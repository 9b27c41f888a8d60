//! What can be used of a network at a moment, by the tables of a book as they lie.
#![tactic(auto)]

mod fares;

use network::Network;
use records::channel::Channel;
use records::state::SpanState;

// A network and two tables of a book over it, as they lie: the records of the channels, and which
// spans are shut.
#[derive(Clone, Copy)]
pub struct Moment<'m, 's, 'c, 'a, 'b> {
    pub network: &'m Network<'s, 'c>,
    pub channels: &'a [Channel],
    pub spans: &'b [SpanState],
}
