// How many nodes, spans and channels there are.
#[derive(Clone, Copy, PartialEq, Eq, Debug)]
pub struct Counts {
    pub nodes: usize,
    pub spans: usize,
    pub channels: usize,
}
