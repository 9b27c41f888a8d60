// Where a path has come to: a node, and the channel on which that was entered, none where the path
// begins.
#[derive(Clone, Copy, PartialEq, Eq, Debug)]
pub struct Point {
    pub node: u8,
    pub entered: Option<u8>,
}
