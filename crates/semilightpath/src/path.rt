ghost use Rattle.std.specs.Prelude.{◌≡◌, ◌↔◌, IsTrue};
ghost use Rattle.network.specs.Steps.{on, distinct};
ghost use Rattle.semilightpath.specs.Scenes.{scene};
ghost use Rattle.semilightpath.specs.Paths.{IsSemilightpath};
ghost use Rattle.semilightpath.specs.Costs.{cost};

use super::fares::Fares;
use super::step::{ends, goes_on, priced};
use cost::kind::Kind;
use network::step::Step;

// Whether a path is a semilightpath from one node to another.
pub fn is_semilightpath<F: Fares>(fares: &F, from: usize, to: usize, path: &[Step]) -> bool
    ensures { IsTrue result ↔ IsSemilightpath (scene (F.over fares.now) (F.fare fares.now)) from to path.now }
{
    let mut node = from;
    let mut entered = None;
    for step in path {
        if !goes_on(fares, node, entered, *step) {
            return false;
        }
        node = usize::from(ends(fares.network(), *step).head);
        entered = Some(step.channel);
    }
    node == to && !path.is_empty()
}

// What a path costs, from left to right. It is told of any steps, so that whoever asks need not
// judge them first.
pub fn cost<K: Kind, F: Fares>(kind: &K, fares: &F, path: &[Step]) -> K::Value
    ensures { result ≡ cost K.ops (scene (F.over fares.now) (F.fare fares.now)) path.now }
{
    let mut value = kind.start();
    let mut entered = None;
    for step in path {
        value = priced(kind, fares, value, entered, *step);
        entered = Some(step.channel);
    }
    value
}

// Whether a step lies on a path.
fn on(step: Step, path: &[Step]) -> bool
    ensures { result ≡ on step path.now }
{
    path.contains(&step)
}

// Whether no step lies on a path twice.
pub fn distinct(path: &[Step]) -> bool
    ensures { result ≡ distinct path.now }
{
    let mut rest = path;
    while let [step, after @ ..] = rest {
        if on(*step, after) {
            return false;
        }
        rest = after;
    }
    true
}
