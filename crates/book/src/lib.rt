//! The book of a network: which circuits there are, which channels they hold, which spans are shut.
#![tactic(auto)]

ghost use Rattle.std.specs.Prelude.{◌≤◌, length};
ghost use Rattle.network.specs.Tariffs.{span_entries};
ghost use Rattle.records.specs.Chains.{circuit_count};
ghost use Rattle.records.specs.Sound.{StepsWithin, StepsApart, RoutesWhole, HoldersNamed};

mod calls;
mod changes;
pub mod lent;
mod looking;
pub mod offer;
mod offering;
mod opening;
mod slipping;
mod spending;
pub mod status;
mod trying;

use lent::Lent;
use network::extent::Extent;
pub use opening::check_tables;

// A book over the tables that the caller lends. The mark is the caller's choice. The tables have an
// entry for all that the book needs, and their records fit together: each standing circuit's records
// chain its path, and a channel's record names a circuit just where the channel lies on its path.
#[derive(Drop)]
pub struct Book<'a, 'b, 'c> {
    extent: Extent,
    mark: u32,
    lent: Lent<'a, 'b, 'c>,
    ghost wide: { span_entries extent.counts ≤ length lent.channels.now },
    ghost rows: { circuit_count ≤ length lent.circuits.now },
    ghost spanned: { extent.counts.spans ≤ length lent.spans.now },
    ghost within: { StepsWithin extent.counts lent.channels.now lent.circuits.now },
    ghost apart: { StepsApart extent.counts lent.channels.now lent.circuits.now },
    ghost whole: { RoutesWhole extent.counts lent.channels.now lent.circuits.now },
    ghost named: { HoldersNamed extent.counts lent.channels.now lent.circuits.now },
}
