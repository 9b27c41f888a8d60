use network::step::Step;

// What holds a channel: a circuit, and the step that follows on the circuit's path, none at the
// path's end.
#[derive(Clone, Copy, PartialEq, Eq, Debug)]
pub struct Hold {
    pub circuit: u8,
    pub next: Option<Step>,
}

// The record of one channel of one span: what holds it, none where it is free.
pub type Channel = Option<Hold>;
