ghost use Rattle.std.specs.Prelude.{◌≡◌};
ghost use Rattle.book.specs.Calls.{Looks};
ghost use Rattle.book.specs.State.{tables};

use super::Book;
use super::status::{State, Status};
use fault::book::BookFault;
use records::circuit::{Circuit, Route};

// What is told of a route that stands so.
fn status(state: State, route: Route) -> Status
    ensures { result ≡ record { state = state; from = route.from; to = route.to; steps = route.steps } }
{
    Status {
        state,
        from: route.from,
        to: route.to,
        steps: route.steps,
    }
}

impl Book<'_, '_, '_> {
    // Looks at a circuit: how it stands, from where to where and by how many steps; nothing where it is
    // free.
    pub fn look(&self, circuit: u16) -> Result<Option<Status>, BookFault>
        ensures { Looks self.now.extent.counts (tables self.now) circuit result }
    {
        let status = match self.record(circuit)? {
            Circuit::Free => None,
            Circuit::Offered(route) => Some(status(State::Offered, route)),
            Circuit::Lit(route) => Some(status(State::Lit, route)),
        };
        Ok(status)
    }
}
