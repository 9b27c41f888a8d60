use semilightpath::point::Point;

// What a search has found: the cost of a cheapest semilightpath, and where it ends in the labels.
#[derive(Clone, Copy, PartialEq, Eq, Debug)]
pub struct Found<V> {
    pub cost: V,
    pub end: Point,
}
