ghost use Rattle.std.specs.Prelude.{◌≡◌, ℕ};
ghost use Rattle.semilightpath.specs.Scenes.{scene};
ghost use Rattle.search.specs.Works.{labels_of, KeepsRest};
ghost use Rattle.search.specs.Answers.{IsOutcome};
ghost use Rattle.search.specs.Invariants.{Searching, Bounds, NotYet};

use super::found::Found;
use super::frontier::{ahead, settle};
use super::goal::Goal;
use super::relax::{Stand, try_steps};
use super::work::Work;
use cost::kind::Kind;
use semilightpath::fares::Fares;

// Settles one arrival after the other, always one of the least cost, until none is open that costs
// less than the best arrival at the goal.
pub(crate) fn run<K: Kind, F: Fares>(
    kind: &K,
    fares: &F,
    work: &mut Work<'_, K>,
    goal: &mut Goal<K::Value>,
) -> Option<Found<K::Value>>
    requires counts { work.old.extent.counts ≡ (F.over fares.now).counts }
    ensures answer { (s : ℕ) → Searching K.ops (scene (F.over fares.now) (F.fare fares.now)) s goal.old.node (labels_of work.old) → Bounds K.ops (labels_of work.old) goal.old → NotYet goal.old.node (labels_of work.old) → IsOutcome K.ops (scene (F.over fares.now) (F.fare fares.now)) s goal.old.node work.new.labels.now result }
    ensures rest { KeepsRest work.old work.new }
{
    while let Some(cost) = ahead(kind, work, goal) {
        let point = settle(kind, work).point();
        try_steps(kind, fares, work, goal, Stand { point, cost });
    }
    goal.found()
}
