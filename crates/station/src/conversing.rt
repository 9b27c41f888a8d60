ghost use Rattle.std.specs.Prelude.{[], ◌∷◌, ◌++◌, length, OnOk};
ghost use Rattle.std.specs.Io.KnownBytes.{Appends};
ghost use Rattle.fault.specs.Reports.{of_load};
ghost use Rattle.network.specs.Net.{net};
ghost use Rattle.desk.specs.Replies.{no_plan};
ghost use Rattle.station.specs.Serving.{Works, Converses};

use super::serving::serve;
use account::open;
use arrayvec::ArrayString;
use book::lent::Lent;
use desk::reply::PlanRefusal;
use fault::plan::LoadFault;
use fault::report::Fault;
use network::{ABSENT, Network};
use plan::reader::check;
use records::channel::Channel;
use records::circuit::{CIRCUITS, Circuit};
use records::state::SpanState;
use std::alloc::Global;
use std::fmt::Write as _;
use std::io;
use std::io::{Read, Write};

// The largest network has 256 spans, 64 nodes and 16 channels.
const SPANS: usize = 256;

const SPAN_CHANNELS: usize = 4096;

const CONVERTERS: usize = 16384;

// The longest line on a plan: "PLAN", a number of 8 bits, a place of 64 bits and byte 10.
const REFUSAL: usize = 30;

// Writes why a plan is refused: one line, which the writer is asked for at once. A line that had no room
// would be written piece by piece.
fn refuse<W: Write>(fault: LoadFault, output: &mut W) -> io::Result<()>
    ensures { OnOk result (Appends (W.contents output.old) (W.contents output.new) (no_plan (of_load fault) ++ 10 ∷ [])) }
{
    let report = fault.report();
    let refusal = PlanRefusal { report };
    let mut line = ArrayString::<REFUSAL>::new();
    match writeln!(line, "{refusal}") {
        Ok(()) => output.write_all(line.as_str().as_bytes()),
        Err(_) => writeln!(output, "{refusal}"),
    }
}

// Opens the book of a network and serves.
fn work<R: Read, W: Write>(
    alloc: Global,
    network: &Network<'_, '_>,
    input: &mut R,
    output: &mut W,
) -> io::Result<()>
    ensures { OnOk result (Works (net network.now)
        (R.remaining input.old) (R.remaining input.new)
        (W.contents output.old) (W.contents output.new)) }
{
    let mut channels: Vec<Channel> = vec![in alloc; None; SPAN_CHANNELS]?;
    let mut circuits = vec![in alloc; Circuit::Free; CIRCUITS]?;
    let mut spans = vec![in alloc; SpanState::Open; SPANS]?;
    let lent = Lent {
        channels: channels.as_mut_slice(),
        circuits: circuits.as_mut_slice(),
        spans: spans.as_mut_slice(),
    };
    let mut book = open(network, 1, lent);
    serve(alloc, network, &mut book, input, output)
}

// Loads the plan into the two tables, and answers the tickets of the input; or writes why the plan is
// refused, and reads nothing.
fn load<R: Read, W: Write>(
    alloc: Global,
    bytes: &[u8],
    tariffs: &mut [u16],
    converters: &mut [u16],
    input: &mut R,
    output: &mut W,
) -> io::Result<()>
    ensures { OnOk result (Converses bytes.now (length tariffs.old) (length converters.old)
        (R.remaining input.old) (R.remaining input.new)
        (W.contents output.old) (W.contents output.new)) }
{
    match check(bytes, tariffs, converters) {
        Err(fault) => refuse(fault, output),
        Ok(plan) => {
            plan.load(tariffs, converters);
            let network = plan.network(tariffs, converters);
            work(alloc, &network, input, output)
        }
    }
}

// Takes the plan, reads tickets from the input to its end, and writes the reply to each; or writes why
// the plan is refused. The tables are those of the largest network.
pub fn converse<R: Read, W: Write>(
    alloc: Global,
    plan: &[u8],
    input: &mut R,
    output: &mut W,
) -> io::Result<()>
    ensures { OnOk result (Converses plan.now 4096 16384
        (R.remaining input.old) (R.remaining input.new)
        (W.contents output.old) (W.contents output.new)) }
{
    let mut tariffs = vec![in alloc; ABSENT; SPAN_CHANNELS]?;
    let mut converters = vec![in alloc; ABSENT; CONVERTERS]?;
    load(
        alloc,
        plan,
        tariffs.as_mut_slice(),
        converters.as_mut_slice(),
        input,
        output,
    )
}

#[cfg(test)]
mod tests {
    use super::converse;
    use std::io::{Result as IoResult, Write};
    use std::test::Fail;

    // A writer that takes all that it is asked to write, and counts how often it is asked.
    #[derive(Drop)]
    struct Counted {
        writes: usize,
        length: usize,
    }

    impl Write for Counted {
        fn write(&mut self, buf: &[u8]) -> IoResult<usize> {
            self.writes = self.writes.saturating_add(1);
            self.length = self.length.saturating_add(buf.len());
            Ok(buf.len())
        }

        fn flush(&mut self) -> IoResult<()> {
            Ok(())
        }
    }

    // The plan of the sample network: 4 nodes, 2 channels, 4 spans, 1 converter.
    const SAMPLE: [u8; 73] = [
        1, 1, 4, 2, 0, 4, 0, 1, 0, 0, 0, 40, 0, 0, 0, 4, 0, 0, 0, 44, 0, 0, 0, 8, 0, 0, 0, 52, 0,
        0, 0, 16, 0, 0, 0, 68, 0, 0, 0, 5, 0, 0, 0, 1, 0, 1, 1, 3, 0, 2, 2, 3, 0, 2, 255, 255, 255,
        255, 0, 3, 0, 4, 0, 4, 0, 5, 255, 255, 1, 0, 1, 0, 1,
    ];

    #[test]
    fn tickets_are_answered_to_the_end(rt: HostRuntime) -> Result<(), Fail> {
        let mut input = b"QUOTE 1 0 3 FEW\nLIGHT 1 0 3 SUM\nDARK X1\nDARK 1".as_slice();
        let mut output = Vec::new(rt.alloc());
        converse(rt.alloc(), &SAMPLE, &mut input, &mut output)?;
        assert_eq!(rt;
            output.as_slice(),
            b"FEE 0+9\nLIT 1 6\nNO 14 7\nDARK 1 2\n".as_slice()
        );
        assert!(rt; input.is_empty(), "all is read");
        Ok(())
    }

    #[test]
    fn nothing_is_read_where_the_plan_is_refused(rt: HostRuntime) -> Result<(), Fail> {
        let mut input = b"DARK 1\n".as_slice();
        let mut output = Vec::new(rt.alloc());
        converse(rt.alloc(), &[], &mut input, &mut output)?;
        assert_eq!(rt; output.as_slice(), b"PLAN 1 0\n".as_slice());
        assert_eq!(rt; input, b"DARK 1\n".as_slice());
        Ok(())
    }

    // How many writes a refused plan takes, and how many bytes they are.
    fn refused(rt: &HostRuntime, plan: &[u8]) -> Result<(usize, usize), Fail> {
        let mut input = b"DARK 1\n".as_slice();
        let mut output = Counted {
            writes: 0,
            length: 0,
        };
        converse(rt.alloc(), plan, &mut input, &mut output)?;
        Ok((output.writes, output.length))
    }

    #[test]
    fn the_shortest_refusal_is_one_write(rt: HostRuntime) -> Result<(), Fail> {
        assert_eq!(rt; refused(&rt, &[])?, (1, b"PLAN 1 0\n".len()));
        Ok(())
    }

    // The largest plan, whose one converter is its last five bytes and changes a channel into itself.
    #[test]
    fn the_longest_refusal_is_one_write(rt: HostRuntime) -> Result<(), Fail> {
        let mut plan = vec![in rt.alloc(); 0u8; 65536]?;
        let bytes = plan.as_mut_slice();
        bytes[..73].copy_from_slice(&SAMPLE);
        bytes[32..36].copy_from_slice(&[0, 0, 255, 251]);
        let asked = refused(&rt, plan.as_slice())?;
        assert_eq!(rt; asked, (1, b"PLAN 9 65531\n".len()));
        Ok(())
    }
}
