ghost use Rattle.fault.specs.Reports.{of_label};

use super::report::{Fault, Layer, Report};

// A field of a label that is not as it must be.
#[derive(Clone, Copy, PartialEq, Eq, Debug)]
pub enum LabelFault {
    // the Grid is not 1
    Grid,
    // the spacing code is not 1 to 4
    Spacing,
    // the Identifier is not 0
    Identifier,
    // the number n is not -1000 to 1000
    Number,
}

impl Fault for LabelFault {
    ghost told = { of_label };

    fn report(&self) -> Report {
        let number = match *self {
            LabelFault::Grid => 30,
            LabelFault::Spacing => 31,
            LabelFault::Identifier => 32,
            LabelFault::Number => 33,
        };
        Report::new(number, 0, Layer::Label)
    }
}
