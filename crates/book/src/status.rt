// How a circuit stands.
#[repr(u8)]
#[derive(Clone, Copy, PartialEq, Eq, Debug)]
pub enum State {
    Offered,
    Lit,
}

// What a look at a circuit tells: how it stands, from where to where, and by how many steps.
#[derive(Clone, Copy, PartialEq, Eq, Debug)]
pub struct Status {
    pub state: State,
    pub from: u8,
    pub to: u8,
    pub steps: u16,
}
