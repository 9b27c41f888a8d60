use semilightpath::point::Point;

// An arrival at a node on a channel.
#[derive(Clone, Copy)]
pub(crate) struct Arrival {
    pub(crate) node: u8,
    pub(crate) channel: u8,
}

impl Arrival {
    ghost use Rattle.std.specs.Prelude.{◌≡◌};
    ghost use Rattle.search.specs.Labels.{point_of};

    // Where a path stands that has arrived.
    pub(crate) fn point(self) -> Point
        ensures { result ≡ point_of self }
    {
        Point {
            node: self.node,
            entered: Some(self.channel),
        }
    }
}
