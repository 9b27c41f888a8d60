ghost use Rattle.std.specs.Prelude.{◌≡◌, ◌+◌, ◌≤◌, length};
ghost use Rattle.network.specs.Tables.{laid};
ghost use Rattle.network.specs.Indexes.{leaving_by, Indexed};

use super::extent::Extent;
use super::span::Span;

// The numbers of the spans, put together by tail: those that leave node u stand in `order` from
// `starts[u]` to `starts[u + 1]`.
#[derive(Clone, Copy)]
pub struct Index {
    pub order: [u16; 256],
    pub starts: [u16; 65],
}

impl Index {
    // The index of a network's spans.
    pub fn new(extent: Extent, ends: &[Span; 256]) -> Index
        ensures { Indexed extent.counts ends.now result.order result.starts }
    {
        let counts = extent.counts();
        let mut order = [0; 256];
        let mut starts = [0; 65];
        let mut end = 0;
        for node in 0..counts.nodes {
            end = write_row(&ends[..counts.spans], node, end, &mut order);
            starts[node + 1] = end as u16;
        }
        Index { order, starts }
    }
}

// Writes the numbers of the spans that leave a node from a place on, and tells where they end.
#[tactic(auto, using(crate::proofs::Rowed::leaving_no, crate::proofs::Rowed::leaving_longer, crate::proofs::Rowed::leaving_fewer, crate::proofs::Rowed::row_more))]
fn write_row(ends: &[Span], node: usize, start: usize, order: &mut [u16]) -> usize
    requires few { length ends.now ≤ 256 }
    requires room { start + length (leaving_by (length ends.now) ends.now node) ≤ length order.old }
    ensures end { result ≡ start + length (leaving_by (length ends.now) ends.now node) }
    ensures row { order.new ≡ laid start (leaving_by (length ends.now) ends.now node) order.old }
{
    let mut end = start;
    for (number, span) in ends.iter().enumerate() {
        if usize::from(span.tail) == node {
            order[end] = number as u16;
            end += 1;
        }
    }
    end
}
