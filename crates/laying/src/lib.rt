//! A path that a search has found is written into the records of the channels.
#![tactic(auto)]

ghost use Rattle.std.specs.Prelude.{◌≡◌, length};
ghost use Rattle.search.specs.Labels.{path_to};
ghost use Rattle.records.specs.Changes.{first_step, taken};

use network::extent::Extent;
use network::step::Step;
use records::chain::write;
use records::channel::{Channel, Hold};
use search::label::Label;
use search::path::last_step;
use semilightpath::point::Point;

// A path as it was laid: its first step, none where it has none, and how many steps it has.
#[derive(Clone, Copy)]
pub struct Laid {
    pub first: Option<Step>,
    pub steps: u16,
}

// Lays the path that the labels lead along to a point: the circuit takes its channels, from the last
// to the first, and the record of each leads to the step that follows.
pub fn lay<V: Copy>(
    extent: Extent,
    labels: &[Label<V>],
    end: Point,
    circuit: u8,
    channels: &mut [Channel],
) -> Laid
    ensures channels { channels.new ≡ taken extent.counts circuit (path_to extent.counts labels.now end) channels.old }
    ensures first { result.first ≡ first_step (path_to extent.counts labels.now end) }
    ensures steps { result.steps ≡ length (path_to extent.counts labels.now end) }
{
    let limit = extent.arrival_entries() as u16;
    let mut point = end;
    let mut next = None;
    for steps in 0..limit {
        let Some(last) = last_step(extent, labels, point) else {
            return Laid { first: next, steps };
        };
        write(extent, channels, last.0, Some(Hold { circuit, next }));
        next = Some(last.0);
        point = last.1;
    }
    Laid {
        first: next,
        steps: limit,
    }
}
