ghost use Rattle.std.specs.Prelude.{◌≡◌, ◌↔◌, IsTrue};
ghost use Rattle.at_book.specs.Old.{old_label, IsOld};

use cost::kind::Kind;
use network::step::Step;
use search::label::{Known, Label};
use semilightpath::point::Point;

// What earlier use left in a label.
const STEP: Step = Step {
    span: 7,
    channel: 7,
};

const POINT: Point = Point {
    node: 7,
    entered: Some(7),
};

// A label that earlier use left.
pub fn old_label<K: Kind>(kind: &K) -> Label<K::Value>
    ensures { result ≡ old_label K.ops }
{
    Some(Known {
        cost: kind.start(),
        step: STEP,
        from: POINT,
        settled: true,
    })
}

// Whether a label is as earlier use left it.
pub fn is_old<K: Kind>(kind: &K, label: Label<K::Value>) -> bool
    ensures { IsTrue result ↔ IsOld K.ops label }
{
    let Some(known) = label else {
        return false;
    };
    kind.at_most(known.cost, kind.start())
        && known.step == STEP
        && known.from == POINT
        && known.settled
}
