ghost use Rattle.std.specs.Prelude.{◌≡◌, ◌≤◌, length, drop, IsSome};
ghost use Rattle.network.specs.Tariffs.{arrival_entries};
ghost use Rattle.semilightpath.specs.Scenes.{scene};
ghost use Rattle.search.specs.Answers.{refusal, IsOutcome, Answers};

use super::entry::is_entered;
use super::found::Found;
use super::goal::Goal;
use super::label::Label;
use super::relax::{Stand, try_steps};
use super::run::run;
use super::work::Work;
use cost::kind::Kind;
use fault::book::BookFault;
use semilightpath::fares::Fares;
use semilightpath::point::Point;

// A cheapest semilightpath from a node to a node over what can be used, by any kind of cost: what it
// costs, and where it ends in the labels, which lead back along it. Which of equally cheap ones it is
// stays open, and what the labels hold beside it; labels beyond those that the network needs stay.
pub fn search<K: Kind, F: Fares>(
    kind: &K,
    fares: &F,
    from: usize,
    to: usize,
    labels: &mut [Label<K::Value>],
) -> Result<Found<K::Value>, BookFault>
    ensures answer { Answers K.ops (scene (F.over fares.now) (F.fare fares.now)) from to labels.new (refusal (F.over fares.now).counts from to (length labels.old)) result }
    ensures refused { IsSome (refusal (F.over fares.now).counts from to (length labels.old)) → labels.new ≡ labels.old }
    ensures long { length labels.new ≡ length labels.old }
    ensures beyond { drop (arrival_entries (F.over fares.now).counts) labels.new ≡ drop (arrival_entries (F.over fares.now).counts) labels.old }
{
    let extent = fares.network().extent();
    let nodes = extent.counts().nodes;
    if from >= nodes || to >= nodes {
        return Err(BookFault::NoNode);
    }
    if labels.len() < extent.arrival_entries() {
        return Err(BookFault::WorkTable);
    }
    match cheapest(kind, fares, from as u8, to as u8, labels) {
        Some(found) => Ok(found),
        None => Err(BookFault::NoPath),
    }
}

// The same between nodes of the network, over a table that has room.
fn cheapest<K: Kind, F: Fares>(
    kind: &K,
    fares: &F,
    from: u8,
    to: u8,
    labels: &mut [Label<K::Value>],
) -> Option<Found<K::Value>>
    requires room { arrival_entries (F.over fares.now).counts ≤ length labels.old }
    ensures answer { IsOutcome K.ops (scene (F.over fares.now) (F.fare fares.now)) from to labels.new result }
    ensures long { length labels.new ≡ length labels.old }
    ensures beyond { drop (arrival_entries (F.over fares.now).counts) labels.new ≡ drop (arrival_entries (F.over fares.now).counts) labels.old }
{
    if !is_entered(fares, to) {
        return None;
    }
    let mut work = Work::new(fares.network().extent(), labels);
    let mut goal = Goal {
        node: to,
        best: None,
    };
    let point = Point {
        node: from,
        entered: None,
    };
    let cost = kind.start();
    try_steps(kind, fares, &mut work, &mut goal, Stand { point, cost });
    run(kind, fares, &mut work, &mut goal)
}
