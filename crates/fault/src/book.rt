ghost use Rattle.fault.specs.Reports.{of_book};

use super::report::{Fault, Layer, Report};

// What the book's layer refuses.
#[derive(Clone, Copy, PartialEq, Eq, Debug)]
pub enum BookFault {
    // a table that loading fills is too short
    LoadTable,
    // a table of the book is too short
    BookTable,
    // the network's counts are not those that the book was opened for
    OtherCounts,
    // there is no such circuit
    NoCircuit,
    // the offer is another book's
    OtherBook,
    // the circuit is not in the state that the call needs
    CircuitState,
    // there is no such node
    NoNode,
    // a path has to lead to another node
    SameNode,
    // there is no such span
    NoSpan,
    // the table that a search works on is too short
    WorkTable,
    // the buffer for a slip is too short
    SlipBuffer,
    // no semilightpath leads there over what can be used
    NoPath,
}

impl Fault for BookFault {
    ghost told = { of_book };

    fn report(&self) -> Report {
        let number = match *self {
            BookFault::LoadTable => 10,
            BookFault::BookTable => 11,
            BookFault::OtherCounts => 20,
            BookFault::NoCircuit => 21,
            BookFault::OtherBook => 22,
            BookFault::CircuitState => 23,
            BookFault::NoNode => 24,
            BookFault::SameNode => 25,
            BookFault::NoSpan => 26,
            BookFault::WorkTable => 27,
            BookFault::SlipBuffer => 28,
            BookFault::NoPath => 29,
        };
        Report::new(number, 0, Layer::Book)
    }
}
