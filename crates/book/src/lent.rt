use records::channel::Channel;
use records::circuit::Circuit;
use records::state::SpanState;

// The tables that a caller lends to a book: one record for each channel of each span, one for each
// circuit, and one byte for each span.
#[derive(Drop)]
pub struct Lent<'a, 'b, 'c> {
    pub channels: &'a mut [Channel],
    pub circuits: &'b mut [Circuit],
    pub spans: &'c mut [SpanState],
}
