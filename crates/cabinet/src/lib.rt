//! What C calls: a plan is judged, and a list of requests is served at a book that is opened for it.
#![tactic(auto)]

ghost use Rattle.std.specs.Prelude.{◌≡◌};
ghost use Rattle.fault.specs.Judging.{first};
ghost use Rattle.plan.specs.Plan.{file_faults, read};
ghost use Rattle.plan.specs.Telling.{tells};
ghost use Rattle.cabinet.specs.Answers.{judged, Comes};

pub mod answer;
mod judging;
pub mod reply;
pub mod request;
mod running;
mod serving;
pub mod switch;

use answer::Answer;
use judging::judge;
use network::ABSENT;
use reply::Reply;
use request::Request;
use running::run;
use switch::Switch;

// As many tariffs as the largest network has: 256 spans, 16 channels.
const TARIFFS: usize = 4096;

// As many converters as it has: 64 nodes, and a pair of channels each.
const CONVERTERS: usize = 16384;

// Judges a plan.
#[unsafe(no_mangle)]
pub extern "C" fn cabinet_check_plan(plan: &[u8]) -> Answer
    ensures { result ≡ judged (first (file_faults plan.now)) }
{
    match judge(plan, &[ABSENT; TARIFFS], &[ABSENT; CONVERTERS]) {
        Err(fault) => Answer::refused(fault),
        Ok(_) => Answer::accepted(0),
    }
}

// Opens a book for a plan's network, all free and open, and serves requests at it, one after the other.
#[unsafe(no_mangle)]
pub extern "C" fn cabinet_run(
    plan: &[u8],
    requests: &[Request],
    replies: &mut [Reply],
    switches: &mut [Switch],
) -> Answer
    ensures { Comes (first (file_faults plan.now)) (tells (read plan.now)) requests.now replies.old replies.new switches.old switches.new result }
{
    let mut tariffs = [ABSENT; TARIFFS];
    let mut converters = [ABSENT; CONVERTERS];
    let plan = match judge(plan, &tariffs, &converters) {
        Err(fault) => return Answer::refused(fault),
        Ok(plan) => plan,
    };
    plan.load(&mut tariffs, &mut converters);
    let network = plan.network(&tariffs, &converters);
    let count = requests.len().min(replies.len());
    run(
        &network,
        &requests[..count],
        &mut replies[..count],
        switches,
    );
    Answer::accepted(count)
}
