// Whether a span is open or shut: one byte a span.
#[repr(u8)]
#[derive(Clone, Copy, PartialEq, Eq, Debug)]
pub enum SpanState {
    Open,
    Shut,
}
