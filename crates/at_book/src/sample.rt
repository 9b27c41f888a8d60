use network::step::Step;
use records::channel::{Channel, Hold};
use records::circuit::{Circuit, Route};
use records::state::SpanState;

// The plan of the sample network: 4 nodes, 2 channels, 4 spans, 1 converter.
pub const SAMPLE: [u8; 73] = [
    1, 1, 4, 2, 0, 4, 0, 1, 0, 0, 0, 40, 0, 0, 0, 4, 0, 0, 0, 44, 0, 0, 0, 8, 0, 0, 0, 52, 0, 0, 0,
    16, 0, 0, 0, 68, 0, 0, 0, 5, 0, 0, 0, 1, 0, 1, 1, 3, 0, 2, 2, 3, 0, 2, 255, 255, 255, 255, 0,
    3, 0, 4, 0, 4, 0, 5, 255, 255, 1, 0, 1, 0, 1,
];

// What earlier use left in the tables.
pub const HELD: Channel = Some(Hold {
    circuit: 9,
    next: None,
});

pub const LIT: Circuit = Circuit::Lit(Route {
    from: 0,
    to: 3,
    first: Step {
        span: 0,
        channel: 0,
    },
    steps: 1,
});

// Tables for a book of it, one entry longer than needed.
#[derive(Clone, Copy)]
pub struct Tables {
    pub channels: [Channel; 9],
    pub circuits: [Circuit; 129],
    pub spans: [SpanState; 5],
}

// All stale.
pub const STALE: Tables = Tables {
    channels: [HELD; 9],
    circuits: [LIT; 129],
    spans: [SpanState::Shut; 5],
};
