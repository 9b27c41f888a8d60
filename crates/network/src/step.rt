// A span taken on one of its channels.
#[derive(Clone, Copy, PartialEq, Eq, Debug)]
pub struct Step {
    pub span: u16,
    pub channel: u8,
}
