ghost use Rattle.std.specs.Prelude.{◌≡◌, ◌<◌, ◌≤◌, None, [], map, IfSome};
ghost use Rattle.network.specs.Limits.{Ranged, Rising, IsJoined, Joined, Roomy, Few, Proper};
ghost use Rattle.network.specs.Tariffs.{tariff};
ghost use Rattle.network.specs.Indexes.{turned};
ghost use Rattle.network.specs.Rows.{Ways, Exits, entering};
ghost use Rattle.network.specs.Net.{net, value, number_of, span_of, leaving, tariff_of, converter_of};

use super::counts::Counts;
use super::extent::Extent;
use super::index::Index;
use super::rows::Rows;
use super::spacing::Spacing;
use super::span::Span;
use super::{ABSENT, Network};

impl<'s, 'c> Network<'s, 'c> {
    // The network of what is told; nothing outside the limits is a network.
    pub fn make(
        extent: Extent,
        spacing: Spacing,
        numbers: [i16; 16],
        ends: [Span; 256],
        tariffs: &'s [u16],
        converters: &'c [u16],
    ) -> Network<'s, 'c>
        requires ranged { Ranged extent.counts numbers }
        requires rising { Rising extent.counts numbers }
        requires joined { Joined extent.counts ends }
        requires roomy { Roomy extent.counts tariffs.now converters.now }
        requires few { Few extent.counts converters.now }
        requires proper { Proper extent.counts converters.now }
        ensures is { net result ≡ value extent.counts spacing numbers ends tariffs.now converters.now }
        ensures tables { (result.tariffs.now ≡ tariffs.now) × (result.converters.now ≡ converters.now) }
    {
        let index = Index::new(extent, &ends);
        let entering = Index::new(extent, &turned(&ends));
        let rows = Rows::new(extent, &index, tariffs, converters);
        Network {
            extent,
            spacing,
            numbers,
            ends,
            index,
            entering,
            rows,
            tariffs,
            converters,
        }
    }

    // The counts, as counts within the limits.
    pub fn extent(&self) -> Extent
        ensures { result.counts ≡ (net self.now).counts }
    {
        self.extent
    }

    // How many nodes, spans and channels there are.
    pub fn counts(&self) -> Counts
        ensures { result ≡ (net self.now).counts }
    {
        self.extent.counts()
    }

    // How far neighbouring channels lie apart.
    pub fn spacing(&self) -> Spacing
        ensures { result ≡ (net self.now).spacing }
    {
        self.spacing
    }

    // The number n of a channel.
    pub fn number(&self, channel: usize) -> Option<i16>
        ensures { result ≡ number_of (net self.now) channel }
    {
        self.numbers[..self.counts().channels].get(channel).copied()
    }

    // The ends of a span.
    pub fn span(&self, span: usize) -> Option<Span>
        ensures is { result ≡ span_of (net self.now) span }
        ensures joined { IfSome result (λ s. IsJoined (net self.now).counts s) }
    {
        self.ends[..self.counts().spans].get(span).copied()
    }

    // The spans that leave a node, by rising number.
    #[tactic(auto, using(crate::proofs::Leaving::row_is, crate::proofs::Leaving::no_row))]
    pub fn leaving(&self, node: usize) -> &[u16]
        ensures { result.now ≡ leaving (net self.now) node }
    {
        if node >= self.counts().nodes {
            return &[];
        }
        let start = usize::from(self.index.starts[node]);
        let end = usize::from(self.index.starts[node + 1]);
        &self.index.order[start..end]
    }

    // The spans that enter a node, by rising number.
    #[tactic(auto, using(crate::proofs::Entering::entering_row_is, crate::proofs::Entering::no_entering_row))]
    pub fn entering(&self, node: usize) -> &[u16]
        ensures { result.now ≡ entering (net self.now) node }
    {
        if node >= self.counts().nodes {
            return &[];
        }
        let start = usize::from(self.entering.starts[node]);
        let end = usize::from(self.entering.starts[node + 1]);
        &self.entering.order[start..end]
    }

    // The spans that leave a node, the cheapest on a channel first, those that do not carry it last.
    pub fn ways(&self, node: usize, channel: usize) -> &[u8]
        ensures ways { channel < (net self.now).counts.channels → Ways (net self.now) node channel result.now }
        ensures beyond { (net self.now).counts.channels ≤ channel → result.now ≡ [] }
    {
        let Counts {
            nodes,
            channels,
            ..
        } = self.counts();
        if node >= nodes || channel >= channels {
            return &[];
        }
        let start = usize::from(self.index.starts[node]);
        let width = usize::from(self.index.starts[node + 1]) - start;
        let at = start * channels + channel * width;
        &self.rows.ways[at..at + width]
    }

    // The channels, the cheapest that a node converts into from a channel first, those that it does
    // not convert into last.
    pub fn exits(&self, node: usize, from: usize) -> &[u8]
        ensures exits { node < (net self.now).counts.nodes → from < (net self.now).counts.channels → Exits (net self.now) node from result.now }
        ensures no_node { (net self.now).counts.nodes ≤ node → result.now ≡ [] }
        ensures no_channel { (net self.now).counts.channels ≤ from → result.now ≡ [] }
    {
        let Counts {
            nodes,
            channels,
            ..
        } = self.counts();
        if node >= nodes || from >= channels {
            return &[];
        }
        let at = (node * channels + from) * channels;
        &self.rows.exits[at..at + channels]
    }

    // The tariff of a channel on a span, where the span carries it.
    pub fn tariff(&self, span: usize, channel: usize) -> Option<u16>
        ensures { result ≡ tariff_of (net self.now) span channel }
    {
        let entry = self.extent.span_entry(span, channel)?;
        charged(self.tariffs[entry])
    }

    // The tariff of a converter at a node, where there is one.
    pub fn converter(&self, node: usize, from: usize, to: usize) -> Option<u16>
        ensures is { result ≡ converter_of (net self.now) node from to }
        ensures proper { from ≡ to → result ≡ None }
    {
        let entry = self.extent.converter_entry(node, from, to)?;
        charged(self.converters[entry])
    }
}

// The spans from their heads to their tails.
fn turned(ends: &[Span; 256]) -> [Span; 256]
    ensures { result ≡ map turned ends.now }
{
    ends.map(|span| Span {
        tail: span.head,
        head: span.tail,
    })
}

// What an entry of a table charges: nothing can be had where it is absent.
fn charged(entry: u16) -> Option<u16>
    ensures { result ≡ tariff entry }
{
    if entry == ABSENT { None } else { Some(entry) }
}
