//! Judges the plans of standard input, one a line: the plan's bytes in hexadecimal, how many zero
//! bytes follow them, and how long the two tables are. It prints the refusal, or the network's
//! counts, its spacing code, a digest of all that it tells, and how many entries were left alone.
#![tactic(auto)]

ghost use Rattle.std.specs.Prelude.{◌≤◌};

use fault::report::Fault;
use network::Network;
use plan::reader::check;
use std::alloc::{AllocError, Global};
use std::io;
use std::io::{BufRead, BufReader, BufWriter, Write};

// What the tables hold before they are lent.
const STALE: u16 = 7;

// What a digit in hexadecimal counts, 0 where it is none (the library would refuse it).
fn nibble(digit: u8) -> u8
    ensures { result ≤ 15 }
{
    match digit {
        b'0'..=b'9' => digit - b'0',
        b'A'..=b'F' => digit - b'A' + 10,
        _ => 0,
    }
}

// A plan's bytes: those written in hexadecimal, and then zeros.
fn bytes_of(heap: Global, digits: &[u8], zeros: usize) -> Result<Vec<u8>, AllocError> {
    let mut bytes = Vec::new(heap);
    let (pairs, _) = digits.as_chunks::<2>();
    for [high, low] in pairs {
        bytes.push(nibble(*high) * 16 + nibble(*low))?;
    }
    bytes.resize(bytes.len().saturating_add(zeros), 0)?;
    Ok(bytes)
}

// A digest with one more value.
fn mix(digest: u32, value: u32) -> u32 {
    digest.wrapping_mul(31).wrapping_add(value)
}

// A tariff's value in a digest, where none has a value of its own.
fn tariff(entry: Option<u16>) -> u32 {
    entry.map_or(65536, u32::from)
}

// The channel numbers.
fn mix_numbers(network: &Network, digest: u32) -> u32 {
    (0..network.counts().channels)
        .filter_map(|channel| network.number(channel))
        .map(|n| u32::from(n.cast_unsigned()))
        .fold(digest, mix)
}

// The tariffs of a span.
fn mix_tariffs(network: &Network, span: usize, digest: u32) -> u32 {
    (0..network.counts().channels)
        .map(|channel| tariff(network.tariff(span, channel)))
        .fold(digest, mix)
}

// The spans, each with its tariffs.
fn mix_spans(network: &Network, digest: u32) -> u32 {
    (0..network.counts().spans).fold(digest, |digest, span| {
        let joined = network.span(span).map_or(digest, |ends| {
            mix(mix(digest, u32::from(ends.tail)), u32::from(ends.head))
        });
        mix_tariffs(network, span, joined)
    })
}

// The converters of a node from a channel.
fn mix_converters(network: &Network, node: usize, from: usize, digest: u32) -> u32 {
    (0..network.counts().channels)
        .map(|to| tariff(network.converter(node, from, to)))
        .fold(digest, mix)
}

// The converters of a node.
fn mix_node(network: &Network, node: usize, digest: u32) -> u32 {
    (0..network.counts().channels).fold(digest, |digest, from| {
        mix_converters(network, node, from, digest)
    })
}

// A digest of all that a network tells.
fn digest_of(network: &Network) -> u32 {
    let digest = mix_spans(network, mix_numbers(network, 1));
    (0..network.counts().nodes).fold(digest, |digest, node| mix_node(network, node, digest))
}

// How many entries were left alone. Counted so, the loop takes many entries at once, which it does not
// where they are filtered first.
fn stale(table: &[u16]) -> usize {
    table.iter().fold(0usize, |count, entry| {
        if *entry == STALE {
            count.saturating_add(1)
        } else {
            count
        }
    })
}

// Prints the refusal of a plan, or what its network tells.
fn judge<W: Write>(
    out: &mut W,
    bytes: &[u8],
    tariffs: &mut [u16],
    converters: &mut [u16],
) -> io::Result<()> {
    let plan = match check(bytes, tariffs, converters) {
        Ok(plan) => plan,
        Err(fault) => {
            let report = fault.report();
            let layer = report.layer;
            let kept = stale(tariffs) == tariffs.len() && stale(converters) == converters.len();
            return writeln!(out, "NO {report} {layer} {kept}");
        }
    };
    plan.load(tariffs, converters);
    let network = plan.network(tariffs, converters);
    let counts = network.counts();
    let spacing = network.spacing().code();
    let digest = digest_of(&network);
    let left = stale(tariffs);
    let beyond = stale(converters);
    writeln!(
        out,
        "OK {} {} {} {spacing} {digest:08X} {left} {beyond}",
        counts.nodes, counts.spans, counts.channels
    )
}

// A number of a line, 0 where there is none.
fn number(text: Option<&str>) -> usize {
    text.and_then(|digits| digits.parse().ok()).unwrap_or(0)
}

// Judges the plan of a line.
fn run<W: Write>(out: &mut W, heap: Global, line: &str) -> anyhow::Result<()> {
    let mut parts = line.split(' ');
    let digits = parts.next().unwrap_or("");
    let zeros = number(parts.next());
    let tariffs = number(parts.next());
    let converters = number(parts.next());
    let bytes = bytes_of(heap, digits.as_bytes(), zeros)?;
    let mut tariffs = vec![in heap; STALE; tariffs]?;
    let mut converters = vec![in heap; STALE; converters]?;
    judge(
        out,
        bytes.as_slice(),
        tariffs.as_mut_slice(),
        converters.as_mut_slice(),
    )?;
    Ok(())
}

// Line after line. Each program has its own: a shared one would be public and could promise nothing.
fn main(rt: HostRuntime) -> anyhow::Result<()> {
    let heap = rt.alloc();
    let mut out = BufWriter::new(heap, rt.stdout())?;
    for line in BufReader::new(heap, rt.stdin())?.lines(heap) {
        let line = line?;
        run(&mut out, heap, line.as_str())?;
    }
    out.flush()?;
    Ok(())
}
