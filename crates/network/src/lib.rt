//! The network: nodes, spans and channels, with what each span and each converter costs.
#![tactic(auto)]

ghost use Rattle.network.specs.Limits.{Ranged, Rising, Joined, Roomy, Few, Proper};
ghost use Rattle.std.specs.Prelude.{map};
ghost use Rattle.network.specs.Indexes.{Indexed, turned};
ghost use Rattle.network.specs.Rates.{Wayed, Exited};

pub mod counts;
pub mod extent;
mod index;
pub mod number;
mod reads;
mod rows;
pub mod spacing;
pub mod span;
pub mod step;
pub mod table;

use extent::Extent;
use index::Index;
use rows::Rows;
use spacing::Spacing;
use span::Span;

// What stands in a table where a span does not carry a channel, or a node has no such converter. The
// tables are the caller's memory, so none is a number there.
pub const ABSENT: u16 = 65535;

// A network over two tables of tariffs that the caller lends: one entry for each channel of each
// span, and one for each node and pair of channels. 65,535 stands for none. A network is `Copy` and
// allocates nothing, so numbers and ends stand in arrays that the counts cut, and so do the indexes of
// the spans by tail and by head and the rows by rising tariff.
#[derive(Clone, Copy)]
pub struct Network<'s, 'c> {
    extent: Extent,
    spacing: Spacing,
    numbers: [i16; 16],
    ends: [Span; 256],
    index: Index,
    entering: Index,
    rows: Rows,
    tariffs: &'s [u16],
    converters: &'c [u16],
    ghost ranged: { Ranged extent.counts numbers },
    ghost rising: { Rising extent.counts numbers },
    ghost joined: { Joined extent.counts ends },
    ghost indexed: { Indexed extent.counts ends index.order index.starts },
    ghost entered: { Indexed extent.counts (map turned ends) entering.order entering.starts },
    ghost wayed: { Wayed extent.counts index.order index.starts tariffs.now rows.ways },
    ghost exited: { Exited extent.counts converters.now rows.exits },
    ghost roomy: { Roomy extent.counts tariffs.now converters.now },
    ghost few: { Few extent.counts converters.now },
    ghost proper: { Proper extent.counts converters.now },
}
