use network::step::Step;
use semilightpath::point::Point;

// What a search knows of an arrival: the least cost of the paths found so far, the last step of such
// a path, where that goes on from, and whether the cost is settled, so that no path costs less.
#[derive(Clone, Copy)]
pub struct Known<V> {
    pub cost: V,
    pub step: Step,
    pub from: Point,
    pub settled: bool,
}

// The label of an arrival, none where the arrival is unknown.
pub type Label<V> = Option<Known<V>>;
