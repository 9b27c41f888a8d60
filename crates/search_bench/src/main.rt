//! Searches made networks of three sizes by each kind of cost, and prints for each how many queries
//! were answered and a digest of the answers; with the argument `time` also how long a query took.
#![tactic(auto)]

mod answers;
mod draws;
mod made;
mod rounds;

use cost::few::Few;
use cost::sum::Sum;
use cost::worst::Worst;
use draws::Draws;
use made::{Query, Size, held, plan_bytes, queries, states};
use moment::Moment;
use network::ABSENT;
use plan::reader::check;
use rounds::report;
use std::{env, io};

const SIZES: [Size; 3] = [
    Size {
        nodes: 16,
        channels: 4,
        share: 90,
    },
    Size {
        nodes: 32,
        channels: 8,
        share: 90,
    },
    Size {
        nodes: 64,
        channels: 16,
        share: 25,
    },
];

// How often the queries are searched where they are timed: the best time counts.
const ROUNDS: u32 = 50;

// The three kinds over one network.
fn search_all(rt: &HostRuntime, rounds: u32, moment: &Moment, queries: &[Query]) -> io::Result<()> {
    report(rt, &Sum, "SUM", rounds, moment, queries)?;
    report(rt, &Few, "FEW", rounds, moment, queries)?;
    report(rt, &Worst, "WORST", rounds, moment, queries)
}

// Makes a network of one size, loads it, and searches it.
fn run(rt: &HostRuntime, rounds: u32, size: Size) -> io::Result<()> {
    let heap = rt.alloc();
    let mut draws = Draws::new(20261127);
    let bytes = plan_bytes(heap, size, &mut draws)?;
    let channels = held(heap, size, &mut draws)?;
    let queries = queries(heap, size, &mut draws)?;
    let mut tariffs = vec![in heap; ABSENT; 4096]?;
    let mut converters = vec![in heap; ABSENT; 16384]?;
    let Ok(plan) = check(bytes.as_slice(), tariffs.as_slice(), converters.as_slice()) else {
        return println!(rt; "the made plan is refused");
    };
    plan.load(tariffs.as_mut_slice(), converters.as_mut_slice());
    let network = plan.network(tariffs.as_slice(), converters.as_slice());
    let spans = states(heap, &network)?;
    let moment = Moment {
        network: &network,
        channels: channels.as_slice(),
        spans: spans.as_slice(),
    };
    search_all(rt, rounds, &moment, queries.as_slice())
}

// How often to search: without the argument `time` once, and no time is told.
fn asked_rounds(rt: &HostRuntime) -> io::Result<u32> {
    let timed = env::args(rt)?
        .nth(1)
        .is_some_and(|word| word.as_str() == "time");
    Ok(if timed { ROUNDS } else { 0 })
}

fn main(rt: HostRuntime) -> io::Result<()> {
    let rounds = asked_rounds(&rt)?;
    for size in SIZES {
        run(&rt, rounds, size)?;
    }
    Ok(())
}
