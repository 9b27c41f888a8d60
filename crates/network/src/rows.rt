ghost use Rattle.std.specs.Prelude.{◌≡◌, ◌<◌, ◌≤◌, ◌*◌, ℕ, length, All};
ghost use Rattle.std.specs.List.{range_with_len};
ghost use Rattle.network.specs.Tariffs.{span_entries, converter_entries};
ghost use Rattle.network.specs.Limits.{Roomy};
ghost use Rattle.network.specs.Rates.{ByRate, span_mark, exit_mark, Ordered, WaysOf, Wayed, ExitsOf, Exited};

use super::ABSENT;
use super::extent::Extent;
use super::index::Index;

// The numbers that a search goes along by rising tariff: the spans that leave a node on a channel,
// and the channels into which a node converts. The rows of a node lie together.
#[derive(Clone, Copy)]
pub struct Rows {
    pub ways: [u8; 4096],
    pub exits: [u8; 16384],
}

impl Rows {
    // The rows over the two tables, of the spans as an index has them.
    pub fn new(extent: Extent, index: &Index, tariffs: &[u16], converters: &[u16]) -> Rows
        requires roomy { Roomy extent.counts tariffs.now converters.now }
        requires ordered { Ordered extent.counts index.now.order index.now.starts }
        ensures ways { Wayed extent.counts index.now.order index.now.starts tariffs.now result.ways }
        ensures exits { Exited extent.counts converters.now result.exits }
    {
        Rows {
            ways: all_ways(extent, index, tariffs),
            exits: all_exits(extent, converters),
        }
    }
}

// The rows of all nodes: those of the spans that leave them.
fn all_ways(extent: Extent, index: &Index, tariffs: &[u16]) -> [u8; 4096]
    requires roomy { span_entries extent.counts ≤ length tariffs.now }
    requires ordered { Ordered extent.counts index.now.order index.now.starts }
    ensures { Wayed extent.counts index.now.order index.now.starts tariffs.now result }
{
    let counts = extent.counts();
    let channels = counts.channels;
    let mut ways = [0; 4096];
    for node in 0..counts.nodes {
        let start = usize::from(index.starts[node]);
        let end = usize::from(index.starts[node + 1]);
        let part = &mut ways[start * channels..end * channels];
        write_ways(extent, tariffs, &index.order[start..end], part);
    }
    ways
}

// Writes the rows of the channels for the spans that leave a node.
fn write_ways(extent: Extent, tariffs: &[u16], spans: &[u16], part: &mut [u8])
    requires roomy { span_entries extent.counts ≤ length tariffs.now }
    requires spans { All (λ e. e < 256) spans.now }
    requires room { length part.old ≡ extent.counts.channels * length spans.now }
    ensures rows { WaysOf extent.counts tariffs.now spans.now part.new }
    ensures room { length part.new ≡ length part.old }
{
    let width = spans.len();
    for channel in 0..extent.counts().channels {
        let start = channel * width;
        write_way(
            extent,
            tariffs,
            spans,
            channel,
            &mut part[start..start + width],
        );
    }
}

// Writes the row of a channel.
fn write_way(extent: Extent, tariffs: &[u16], spans: &[u16], channel: usize, row: &mut [u8])
    requires roomy { span_entries extent.counts ≤ length tariffs.now }
    requires spans { All (λ e. e < 256) spans.now }
    requires room { length row.old ≡ length spans.now }
    ensures row { ByRate (span_mark extent.counts tariffs.now channel) spans.now row.new }
    ensures room { length row.new ≡ length row.old }
{
    copy(spans, row);
    row.sort_unstable_by_key(|span| span_mark(extent, tariffs, usize::from(*span), channel));
}

// Writes numbers below 256 into as many entries.
fn copy(numbers: &[u16], row: &mut [u8])
    requires numbers { All (λ e. e < 256) numbers.now }
    requires room { length row.old ≡ length numbers.now }
    ensures { row.new ≡ numbers.now }
{
    for (place, number) in numbers.iter().enumerate() {
        row[place] = *number as u8;
    }
}

// What the table has for a channel of a span.
fn span_mark(extent: Extent, tariffs: &[u16], span: usize, channel: usize) -> u16
    requires { span_entries extent.counts ≤ length tariffs.now }
    ensures { result ≡ span_mark extent.counts tariffs.now channel span }
{
    match extent.span_entry(span, channel) {
        Some(entry) => tariffs[entry],
        None => ABSENT,
    }
}

// The rows of all nodes: those of the channels into which they convert.
fn all_exits(extent: Extent, converters: &[u16]) -> [u8; 16384]
    requires { converter_entries extent.counts ≤ length converters.now }
    ensures { Exited extent.counts converters.now result }
{
    let counts = extent.counts();
    let size = counts.channels * counts.channels;
    let mut exits = [0; 16384];
    for node in 0..counts.nodes {
        let start = node * size;
        write_exits(extent, converters, node, &mut exits[start..start + size]);
    }
    exits
}

// Writes the rows of the channels from which a node may convert.
fn write_exits(extent: Extent, converters: &[u16], node: usize, part: &mut [u8])
    requires roomy { converter_entries extent.counts ≤ length converters.now }
    requires room { length part.old ≡ extent.counts.channels * extent.counts.channels }
    ensures rows { ExitsOf extent.counts converters.now node part.new }
    ensures room { length part.new ≡ length part.old }
{
    let channels = extent.counts().channels;
    for from in 0..channels {
        let start = from * channels;
        write_exit(
            extent,
            converters,
            node,
            from,
            &mut part[start..start + channels],
        );
    }
}

// Writes the row of a channel from which a node may convert.
fn write_exit(extent: Extent, converters: &[u16], node: usize, from: usize, row: &mut [u8])
    requires roomy { converter_entries extent.counts ≤ length converters.now }
    requires room { length row.old ≡ extent.counts.channels }
    ensures row { ByRate (exit_mark extent.counts converters.now node from) (range_with_len 0 extent.counts.channels) row.new }
    ensures room { length row.new ≡ length row.old }
{
    count_up(row);
    row.sort_unstable_by_key(|to| exit_mark(extent, converters, node, from, usize::from(*to)));
}

// Writes the numbers from 0 on.
#[tactic(auto, using(crate::proofs::Filled::counted_more))]
fn count_up(row: &mut [u8])
    requires { length row.old ≤ 256 }
    ensures { row.new ≡ range_with_len 0 (length row.old) }
{
    for (place, entry) in row.iter_mut().enumerate() {
        *entry = place as u8;
    }
}

// What the table has for a converter of a node.
fn exit_mark(extent: Extent, converters: &[u16], node: usize, from: usize, to: usize) -> u16
    requires { converter_entries extent.counts ≤ length converters.now }
    ensures { result ≡ exit_mark extent.counts converters.now node from to }
{
    match extent.converter_entry(node, from, to) {
        Some(entry) => converters[entry],
        None => ABSENT,
    }
}
