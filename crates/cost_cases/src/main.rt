//! Reckons the costs of standard input, one a line: a kind, a value and either charges or `MOST`
//! and another value. A charge is `S` (a span) or `C` (a conversion) with its tariff. It prints
//! the start of that kind and the value after the charges, or whether the value is at most the
//! other.
#![tactic(auto)]

use cost::charge::{Charge, after_all};
use cost::fee::Fee;
use cost::few::Few;
use cost::kind::Kind;
use cost::sum::Sum;
use cost::tally::Tally;
use cost::worst::Worst;
use std::alloc::Global;
use std::io::{BufRead, BufReader, BufWriter, Write};

// A kind whose values can be read from text.
trait Readable: Kind {
    // The value that a word says.
    fn value(word: &str) -> anyhow::Result<Self::Value>;
}

impl Readable for Sum {
    fn value(word: &str) -> anyhow::Result<Fee> {
        Ok(Fee::new(word.parse::<u32>()?))
    }
}

impl Readable for Few {
    fn value(word: &str) -> anyhow::Result<Tally> {
        let (count, sum) = word.split_once('+').unwrap_or(("", ""));
        Ok(Tally::new(count.parse::<u32>()?, Sum::value(sum)?))
    }
}

impl Readable for Worst {
    fn value(word: &str) -> anyhow::Result<u16> {
        Ok(word.parse::<u16>()?)
    }
}

// The charge that a word says.
fn charge(word: &str) -> anyhow::Result<Charge> {
    if let Some(digits) = word.strip_prefix('S') {
        let tariff = digits.parse::<u16>()?;
        return Ok(Charge::Span { tariff });
    }
    let tariff = word.strip_prefix('C').unwrap_or("").parse::<u16>()?;
    Ok(Charge::Conversion { tariff })
}

// The charges of a line's rest.
fn charges(heap: Global, words: &str) -> anyhow::Result<Vec<Charge>> {
    let mut charges = Vec::new(heap);
    for word in words.split(' ') {
        charges.push(charge(word)?)?;
    }
    Ok(charges)
}

// Reckons the rest of a line of this kind.
fn reckon<W: Write, K: Readable>(
    out: &mut W,
    heap: Global,
    kind: &K,
    words: &str,
) -> anyhow::Result<()> {
    let (value, rest) = words.split_once(' ').unwrap_or(("", ""));
    let value = K::value(value)?;
    match rest.strip_prefix("MOST ") {
        Some(other) => {
            let other = K::value(other)?;
            let most = kind.at_most(value, other);
            writeln!(out, "{value} {most} {other}")?;
        }
        None => {
            let charges = charges(heap, rest)?;
            let start = kind.start();
            let after = after_all(kind, value, charges.as_slice());
            writeln!(out, "{start} {after}")?;
        }
    }
    Ok(())
}

// Reckons a line.
fn run<W: Write>(out: &mut W, heap: Global, line: &str) -> anyhow::Result<()> {
    let (kind, rest) = line.split_once(' ').unwrap_or(("", ""));
    match kind {
        "SUM" => reckon(out, heap, &Sum, rest),
        "FEW" => reckon(out, heap, &Few, rest),
        _ => reckon(out, heap, &Worst, rest),
    }
}

// Line after line. Each program has its own: a shared one would be public and could promise nothing.
fn main(rt: HostRuntime) -> anyhow::Result<()> {
    let heap = rt.alloc();
    let mut out = BufWriter::new(heap, rt.stdout())?;
    for line in BufReader::new(heap, rt.stdin())?.lines(heap) {
        let line = line?;
        run(&mut out, heap, line.as_str())?;
    }
    out.flush()?;
    Ok(())
}

#[cfg(test)]
mod tests {
    use cost::charge::{Charge, after_all};
    use cost::fee::Fee;
    use cost::few::Few;
    use cost::kind::Kind;
    use cost::sum::Sum;
    use cost::tally::Tally;
    use cost::worst::Worst;

    // The two routes of the sample network from node 0 to node 3.
    const BY_NODE_1: [Charge; 3] = [
        Charge::Span { tariff: 2 },
        Charge::Conversion { tariff: 1 },
        Charge::Span { tariff: 3 },
    ];

    const BY_NODE_2: [Charge; 2] = [Charge::Span { tariff: 4 }, Charge::Span { tariff: 5 }];

    // What the two routes cost.
    fn both<K: Kind>(kind: &K) -> (K::Value, K::Value) {
        let start = kind.start();
        (
            after_all(kind, start, &BY_NODE_1),
            after_all(kind, start, &BY_NODE_2),
        )
    }

    #[test]
    fn two_routes(rt: HostRuntime) {
        assert_eq!(rt; both(&Sum), (Fee::new(6), Fee::new(9)));
        let few = (Tally::new(1, Fee::new(6)), Tally::new(0, Fee::new(9)));
        assert_eq!(rt; both(&Few), few);
        assert_eq!(rt; both(&Worst), (3, 5));
        assert!(rt; Few.at_most(few.1, few.0), "no conversion is better");
    }

    #[test]
    fn the_ends_of_values(rt: HostRuntime) {
        assert_eq!(rt;
            Sum.after_span(Fee::new(4_294_967_290), 9),
            Fee::new(u32::MAX)
        );
        let last = Tally::new(65_535, Fee::new(u32::MAX));
        assert_eq!(rt;
            Few.after_conversion(Tally::new(65_534, Fee::new(7)), 0),
            last
        );
        assert_eq!(rt; Tally::new(65_535, Fee::new(4)), last);
    }
}
