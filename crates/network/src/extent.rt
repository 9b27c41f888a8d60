ghost use Rattle.std.specs.Prelude.{◌≡◌, ◌<◌, ◌≤◌, ◌&&◌, nat_lt, IfSome};
ghost use Rattle.network.specs.Extents.{Counted, given};
ghost use Rattle.network.specs.Tariffs.{span_entries, span_entry, converter_entries, converter_entry, arrival_entries, arrival_entry};

use super::counts::Counts;

// The counts of a network, which are within the limits of every network.
#[derive(Clone, Copy, PartialEq, Eq, Debug)]
pub struct Extent {
    counts: Counts,
    ghost counted: { Counted counts },
}

impl Extent {
    // The extent of counts within the limits.
    pub fn new(counts: Counts) -> Extent
        requires { Counted counts }
        ensures { result.counts ≡ counts }
    {
        Extent { counts }
    }

    // How many nodes, spans and channels there are.
    pub fn counts(self) -> Counts
        ensures is { result ≡ self.counts }
        ensures counted { Counted result }
    {
        self.counts
    }

    // How many entries a table has for all channels of all spans.
    pub fn span_entries(self) -> usize
        ensures is { result ≡ span_entries self.counts }
        ensures few { result ≤ 4096 }
    {
        let counts = self.counts;
        counts.spans * counts.channels
    }

    // Where a channel of a span stands in such a table.
    pub fn span_entry(self, span: usize, channel: usize) -> Option<usize>
        ensures is { result ≡ given (nat_lt span self.counts.spans && nat_lt channel self.counts.channels) (span_entry self.counts span channel) }
        ensures within { IfSome result (λ i. i < span_entries self.counts) }
    {
        let counts = self.counts;
        if span >= counts.spans || channel >= counts.channels {
            return None;
        }
        Some(span * counts.channels + channel)
    }

    // How many entries a table has for all converters at all nodes.
    pub fn converter_entries(self) -> usize
        ensures is { result ≡ converter_entries self.counts }
        ensures few { result ≤ 16384 }
    {
        let counts = self.counts;
        counts.nodes * counts.channels * counts.channels
    }

    // Where a converter of a node stands in such a table.
    pub fn converter_entry(self, node: usize, from: usize, to: usize) -> Option<usize>
        ensures is { result ≡ given (nat_lt node self.counts.nodes && (nat_lt from self.counts.channels && nat_lt to self.counts.channels)) (converter_entry self.counts node from to) }
        ensures within { IfSome result (λ i. i < converter_entries self.counts) }
    {
        let counts = self.counts;
        if node >= counts.nodes || from >= counts.channels || to >= counts.channels {
            return None;
        }
        Some((node * counts.channels + from) * counts.channels + to)
    }

    // How many entries a table has for all arrivals: at all nodes, on all channels.
    pub fn arrival_entries(self) -> usize
        ensures is { result ≡ arrival_entries self.counts }
        ensures few { result ≤ 1024 }
    {
        let Counts {
            nodes,
            channels,
            ..
        } = self.counts;
        nodes * channels
    }

    // Where the arrival at a node on a channel stands in such a table.
    pub fn arrival_entry(self, node: usize, channel: usize) -> Option<usize>
        ensures is { result ≡ given (nat_lt node self.counts.nodes && nat_lt channel self.counts.channels) (arrival_entry self.counts node channel) }
        ensures within { IfSome result (λ i. i < arrival_entries self.counts) }
    {
        let counts = self.counts;
        if node >= counts.nodes || channel >= counts.channels {
            return None;
        }
        Some(node * counts.channels + channel)
    }
}
