ghost use Rattle.std.specs.Prelude.{◌≡◌};
ghost use Rattle.fault.specs.Reports.{of_file};
ghost use Rattle.cabinet.specs.Answers.{accepted, reported};

use fault::plan::FileFault;
use fault::report::Fault;

// What an export answers: 0 and how many requests were served, or the number of the plan's fault and its
// place.
#[repr(C)]
#[derive(Clone, Copy, PartialEq, Eq, Debug)]
pub struct Answer {
    pub refusal: u8,
    pub place: usize,
    pub served: usize,
}

impl Answer {
    // So many requests were served.
    pub(crate) fn accepted(served: usize) -> Answer
        ensures { result ≡ accepted served }
    {
        Answer {
            refusal: 0,
            place: 0,
            served,
        }
    }

    // The plan is refused.
    pub(crate) fn refused(fault: FileFault) -> Answer
        ensures { result ≡ reported (of_file fault) }
    {
        let report = fault.report();
        Answer {
            refusal: report.number,
            place: report.place,
            served: 0,
        }
    }
}
