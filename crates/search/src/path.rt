ghost use Rattle.std.specs.Prelude.{◌≡◌, length, nat_le};
ghost use Rattle.network.specs.Extents.{given};
ghost use Rattle.network.specs.Net.{net};
ghost use Rattle.search.specs.Labels.{labels_in, back_from, path_to, fronted};

use super::arrival::Arrival;
use super::label::Label;
use super::table::label_in;
use network::Network;
use network::extent::Extent;
use network::step::Step;
use semilightpath::point::Point;

// Reads the path off the labels that leads to a point, as that to where a search has ended: its steps
// are written in order, and told is how many; none where there is no room for them, and then nothing
// is written.
pub fn read_path<V: Copy>(
    network: &Network,
    labels: &[Label<V>],
    end: Point,
    path: &mut [Step],
) -> Option<usize>
    ensures answer { result ≡ given (nat_le (length (path_to (net network.now).counts labels.now end)) (length path.old)) (length (path_to (net network.now).counts labels.now end)) }
    ensures path { path.new ≡ fronted (path_to (net network.now).counts labels.now end) path.old }
{
    let extent = network.extent();
    let count = count_steps(extent, labels, end);
    if count > path.len() {
        return None;
    }
    write_steps(extent, labels, end, &mut path[..count]);
    Some(count)
}

// The last step of the path to a point, and where that goes on from; none where the path begins.
pub fn last_step<V: Copy>(
    extent: Extent,
    labels: &[Label<V>],
    point: Point,
) -> Option<(Step, Point)>
    ensures { result ≡ back_from (labels_in extent.counts labels.now) point.node point.entered }
{
    let channel = point.entered?;
    let arrival = Arrival {
        node: point.node,
        channel,
    };
    let known = label_in(extent, labels, arrival)?;
    Some((known.step, known.from))
}

// How many steps lead to a point.
#[tactic(auto, using(crate::proofs::Backs::count_more))]
fn count_steps<V: Copy>(extent: Extent, labels: &[Label<V>], end: Point) -> usize
    ensures { result ≡ length (path_to extent.counts labels.now end) }
{
    let limit = extent.arrival_entries();
    let mut point = end;
    for count in 0..limit {
        let Some(last) = last_step(extent, labels, point) else {
            return count;
        };
        point = last.1;
    }
    limit
}

// Writes the steps that lead to a point, from the last to the first.
fn write_steps<V: Copy>(extent: Extent, labels: &[Label<V>], end: Point, path: &mut [Step])
    requires { length path.old ≡ length (path_to extent.counts labels.now end) }
    ensures { path.new ≡ path_to extent.counts labels.now end }
{
    let mut point = end;
    for written in 0..path.len() {
        let Some(last) = last_step(extent, labels, point) else {
            return;
        };
        let place = path.len() - 1 - written;
        path[place] = last.0;
        point = last.1;
    }
}
