ghost use Rattle.std.specs.Prelude.{◌≡◌, None, length};
ghost use Rattle.network.specs.Net.{net};
ghost use Rattle.book.specs.State.{tables, Kept};
ghost use Rattle.cabinet.specs.Serving.{Good, stand, Runs, RunsFresh};

use super::reply::Reply;
use super::request::Request;
use super::serving::{Served, give_back, serve};
use super::switch::Switch;
use book::Book;
use book::lent::Lent;
use book::offer::Offer;
use network::Network;
use records::channel::Channel;
use records::circuit::{CIRCUITS, Circuit};
use records::state::SpanState;

// The largest network has 256 spans of 16 channels.
const SPANS: usize = 256;

const SPAN_CHANNELS: usize = 4096;

// The mark of the book, which is the only one there is.
const MARK: u32 = 1;

// Serves requests, one after the other; told is what is in hand at the end.
fn serve_all(
    book: &mut Book<'_, '_, '_>,
    network: &Network<'_, '_>,
    requests: &[Request],
    replies: &mut [Reply],
    switches: &mut [Switch],
) -> Option<Offer>
    requires { length requests.now ≡ length replies.old }
    ensures kept { Kept book.old book.new }
    ensures good { Good book.new.mark (tables book.new) result }
    ensures runs { Runs (net network.now) book.old.extent.counts book.old.mark (stand (tables book.old) None switches.old) requests.now replies.new (stand (tables book.new) result switches.new) }
{
    let mut hand = None;
    for (i, request) in requests.iter().enumerate() {
        let Served { reply, hand: next } = serve(book, network, hand, *request, switches);
        replies[i] = reply;
        hand = next;
    }
    hand
}

// Opens a book of a network and serves requests at it. What is in hand at the end is withdrawn.
pub(crate) fn run(
    network: &Network<'_, '_>,
    requests: &[Request],
    replies: &mut [Reply],
    switches: &mut [Switch],
)
    requires { length requests.now ≡ length replies.old }
    ensures { RunsFresh (net network.now) requests.now switches.old replies.new switches.new }
{
    let mut channels: [Channel; SPAN_CHANNELS] = [None; SPAN_CHANNELS];
    let mut circuits = [Circuit::Free; CIRCUITS];
    let mut spans = [SpanState::Open; SPANS];
    let lent = Lent {
        channels: &mut channels,
        circuits: &mut circuits,
        spans: &mut spans,
    };
    let mut book = Book::open(network, MARK, lent);
    let hand = serve_all(&mut book, network, requests, replies, switches);
    give_back(&mut book, hand);
}
