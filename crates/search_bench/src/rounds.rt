use super::answers::{Answers, Numbered};
use super::made::Query;
use moment::Moment;
use search::label::Label;
use search::search;
use std::io;
use std::time::CpuClock;

// How many labels the largest network needs.
const LABELS: usize = 1024;

// Searches for the answer to each query.
fn answer<K: Numbered>(
    kind: &K,
    moment: &Moment,
    queries: &[Query],
    labels: &mut [Label<K::Value>],
) -> Answers {
    let mut answers = Answers::new();
    for query in queries {
        let from = usize::from(query.from);
        let to = usize::from(query.to);
        let number = match search(kind, moment, from, to, labels) {
            Ok(found) => Some(kind.number(found.cost)),
            Err(_) => None,
        };
        answers = answers.with(number);
    }
    answers
}

// The processor's time so far, in nanoseconds.
fn now(rt: &HostRuntime) -> io::Result<u64> {
    let time = rt.thread_cpu_time()?;
    Ok((time.as_nanos() & 0xffff_ffff_ffff_ffff) as u64)
}

// The answers, and the shortest time of some rounds, in nanoseconds.
fn best<K: Numbered>(
    rt: &HostRuntime,
    kind: &K,
    rounds: u32,
    moment: &Moment,
    queries: &[Query],
    labels: &mut [Label<K::Value>],
) -> io::Result<(Answers, u64)> {
    let mut answers = answer(kind, moment, queries, labels);
    let mut best = u64::MAX;
    for _ in 0..rounds {
        let start = now(rt)?;
        answers = answer(kind, moment, queries, labels);
        best = best.min(now(rt)?.wrapping_sub(start));
    }
    Ok((answers, best))
}

// Prints how long a query took, in microseconds.
fn print_time(rt: &HostRuntime, nanoseconds: u64, queries: usize) -> io::Result<()> {
    let each = nanoseconds
        .checked_div(queries as u64)
        .unwrap_or(0)
        .wrapping_add(5)
        / 10;
    let whole = each / 100;
    let part = each % 100;
    print!(rt; " {whole}.{part:02}")
}

// Prints the answers by a kind, and where rounds are asked for also the time of a query.
pub(crate) fn report<K: Numbered>(
    rt: &HostRuntime,
    kind: &K,
    name: &str,
    rounds: u32,
    moment: &Moment,
    queries: &[Query],
) -> io::Result<()> {
    let mut labels: Vec<Label<K::Value>> = vec![in rt.alloc(); None; LABELS]?;
    let (answers, time) = best(rt, kind, rounds, moment, queries, labels.as_mut_slice())?;
    let Answers { found, digest } = answers;
    let counts = moment.network.counts();
    print!(rt; "{} {} {} ", counts.nodes, counts.channels, counts.spans)?;
    print!(rt; "{name} {found} {digest:016x}")?;
    if rounds > 0 {
        print_time(rt, time, queries.len())?;
    }
    println!(rt)
}
