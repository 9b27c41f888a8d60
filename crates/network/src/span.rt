// A one-way fibre from its tail to its head.
#[derive(Clone, Copy, PartialEq, Eq, Debug)]
pub struct Span {
    pub tail: u8,
    pub head: u8,
}
