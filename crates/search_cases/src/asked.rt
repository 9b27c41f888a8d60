use cost::fee::Fee;
use cost::few::Few;
use cost::kind::Kind;
use cost::sum::Sum;
use cost::tally::Tally;
use cost::worst::Worst;
use fault::book::BookFault;
use moment::Moment;
use network::Network;
use network::step::Step;
use search::label::Label;
use search::path::read_path;
use search::search;
use semilightpath::path::{cost, distinct, is_semilightpath};
use std::process::Abort;

// What it costs by each kind.
pub(crate) type Costs = (Fee, Tally, u16);

// The cheapest by one kind, and how many steps its path has, which has to stand.
pub(crate) fn cheapest<K: Kind>(
    rt: &impl Abort,
    kind: &K,
    moment: &Moment,
    (from, to): (usize, usize),
    labels: &mut [Label<K::Value>],
    path: &mut [Step],
) -> Option<(K::Value, usize)> {
    let found = match search(kind, moment, from, to, labels) {
        Ok(found) => found,
        Err(fault) => {
            assert_eq!(rt; fault, BookFault::NoPath);
            return None;
        }
    };
    let count = read_path(moment.network, labels, found.end, path).unwrap_or(0);
    let path = path.get(..count)?;
    assert!(rt; is_semilightpath(moment, from, to, path), "a semilightpath");
    assert!(rt; distinct(path), "no step twice");
    let cost = cost(kind, moment, path);
    assert!(rt;
        kind.at_most(cost, found.cost) && kind.at_most(found.cost, cost),
        "at the cost that is told"
    );
    Some((found.cost, count))
}

// What the cheapest paths cost, by each kind.
pub(crate) fn costs(rt: &impl Abort, moment: &Moment, from: usize, to: usize) -> Option<Costs> {
    let mut fees: [Label<Fee>; 1024] = [None; 1024];
    let mut tallies: [Label<Tally>; 1024] = [None; 1024];
    let mut tariffs: [Label<u16>; 1024] = [None; 1024];
    let mut path = [on(0, 0); 1024];
    let ends = (from, to);
    let sum = cheapest(rt, &Sum, moment, ends, &mut fees, &mut path);
    let few = cheapest(rt, &Few, moment, ends, &mut tallies, &mut path);
    let worst = cheapest(rt, &Worst, moment, ends, &mut tariffs, &mut path);
    assert_eq!(rt;
        [few.is_some(), worst.is_some()],
        [sum.is_some(); 2],
        "all or none"
    );
    Some((sum?.0, few?.0, worst?.0))
}

// What they cost, told in numbers: by SUM, by FEW and by WORST.
pub(crate) fn told(sum: u32, few: (u32, u32), worst: u16) -> Option<Costs> {
    let (conversions, beside) = few;
    let few = Tally::new(conversions, Fee::new(beside));
    Some((Fee::new(sum), few, worst))
}

// A network of which all can be used.
pub(crate) fn all<'m, 's, 'c>(
    network: &'m Network<'s, 'c>,
) -> Moment<'m, 's, 'c, 'static, 'static> {
    Moment {
        network,
        channels: &[],
        spans: &[],
    }
}

// A span on a channel.
pub(crate) fn on(span: u16, channel: u8) -> Step {
    Step { span, channel }
}
