//! Compares the search with another router, written without it, on networks drawn by a seed, by
//! all kinds of cost: whether there is a path, what it costs, and whether the path that the search
//! found is a semilightpath at that cost. It prints a line for each group of networks: how many
//! queries found a path, how many did not, and a digest of all costs. Where the two differ, the line
//! says how often.
#![tactic(auto)]

#[cfg(test)]
mod booked;
mod draws;
mod groups;
mod judge;
mod router;
mod score;
mod shape;
mod told;
mod upside;

use cost::few::Few;
use cost::sum::Sum;
use cost::worst::Worst;
use draws::Draws;
use groups::{GROUPS, Group};
use judge::ask;
use moment::Moment;
use plan::reader::check;
use records::channel::Channel;
use records::state::SpanState;
use score::Score;
use shape::Shape;
use std::alloc::{AllocError, Global};
use std::io;
use upside::Upside;

// Asks a network by every kind, at a moment that is drawn.
fn ask_network(
    heap: Global,
    draws: &mut Draws,
    shape: Shape,
    ends: usize,
    score: &mut Score,
) -> Result<(), AllocError> {
    let bytes = shape.plan(heap, draws)?;
    let mut tariffs = [0u16; 4096];
    let mut converters = [0u16; 16384];
    let Ok(plan) = check(bytes.as_slice(), &tariffs, &converters) else {
        score.wrong();
        return Ok(());
    };
    plan.load(&mut tariffs, &mut converters);
    let network = plan.network(&tariffs, &converters);
    let extent = network.extent();
    let mut spans = vec![in heap; SpanState::Open; extent.counts().spans]?;
    let mut channels: Vec<Channel> = vec![in heap; None; extent.span_entries()]?;
    shape.shut(draws, spans.as_mut_slice());
    shape.held(draws, channels.as_mut_slice());
    let moment = Moment {
        network: &network,
        channels: channels.as_slice(),
        spans: spans.as_slice(),
    };
    ask(&Sum, heap, &moment, ends, score)?;
    ask(&Few, heap, &moment, ends, score)?;
    ask(&Worst, heap, &moment, ends, score)?;
    ask(&Upside, heap, &moment, ends, score)
}

// Asks the networks of a group.
fn ask_group(heap: Global, group: &Group) -> Result<Score, AllocError> {
    let mut draws = Draws::new(group.seed);
    let mut score = Score::new();
    for _ in 0..group.networks {
        ask_network(heap, &mut draws, group.shape, group.ends, &mut score)?;
    }
    Ok(score)
}

// Group after group.
fn main(rt: HostRuntime) -> io::Result<()> {
    let heap = rt.alloc();
    for group in &GROUPS {
        let score = ask_group(heap, group)?;
        println!(rt; "{}: {score}", group.name)?;
    }
    Ok(())
}
