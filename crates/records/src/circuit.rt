ghost use Rattle.std.specs.Prelude.{◌≡◌, nat_lt};
ghost use Rattle.records.specs.Chains.{circuit_count, standing};

use network::step::Step;

// How many circuits a book has.
pub const CIRCUITS: usize = 128;

// Whether a book has a circuit of this number.
pub fn is_circuit(number: u16) -> bool
    ensures { result ≡ nat_lt number circuit_count }
{
    usize::from(number) < CIRCUITS
}

// Where a circuit leads, the first step of its path, and how many steps the path has.
#[derive(Clone, Copy, PartialEq, Eq, Debug)]
pub struct Route {
    pub from: u8,
    pub to: u8,
    pub first: Step,
    pub steps: u16,
}

// The record of one circuit.
#[derive(Clone, Copy, PartialEq, Eq, Debug)]
pub enum Circuit {
    Free,
    Offered(Route),
    Lit(Route),
}

impl Circuit {
    // The route of a circuit that stands.
    pub fn standing(self) -> Option<Route>
        ensures { result ≡ standing self }
    {
        match self {
            Circuit::Free => None,
            Circuit::Offered(route) | Circuit::Lit(route) => Some(route),
        }
    }
}
