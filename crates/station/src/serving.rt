ghost use Rattle.std.specs.Prelude.{◌<◌, length, OnOk};
ghost use Rattle.network.specs.Net.{net};
ghost use Rattle.account.specs.Law.{Law};
ghost use Rattle.book.specs.State.{tables, Kept};
ghost use Rattle.station.specs.Serving.{Serves};

use book::Book;
use desk::input::{feed, finish};
use desk::line::Line;
use network::Network;
use std::alloc::Global;
use std::io;
use std::io::{ErrorKind, Read, Write};

// How many bytes of the input are read at once.
const CHUNK: usize = 65536;

// Answers the tickets of the input, as much of it at once as the chunk has room for.
fn answer_chunks<R: Read, W: Write>(
    alloc: Global,
    network: &Network<'_, '_>,
    book: &mut Book<'_, '_, '_>,
    chunk: &mut [u8],
    input: &mut R,
    output: &mut W,
) -> io::Result<()>
    requires { 0 < length chunk.old }
    ensures kept { Kept book.old book.new }
    ensures ok { OnOk result (Serves (net network.now) book.old.extent.counts (tables book.old)
        (R.remaining input.old) (R.remaining input.new)
        (W.contents output.old) (W.contents output.new) (tables book.new)) }
{
    let mut line = Line::new();
    let mut out = String::new(alloc);
    // reading has no end that is known: a chunk of no bytes is the last
    for _ in 0..u64::MAX {
        let count = input.read(chunk)?;
        if count == 0 {
            finish(network, book, &mut line, &mut out)?;
            return output.write_all(out.as_bytes());
        }
        feed(network, book, &mut line, &chunk[..count], &mut out)?;
        output.write_all(out.as_bytes())?;
        out.clear();
    }
    Err(io::Error::from(ErrorKind::FileTooLarge))
}

// Answers the tickets of the input at a book that has just been opened under the law over every run.
pub(crate) fn serve<R: Read, W: Write>(
    alloc: Global,
    network: &Network<'_, '_>,
    book: &mut Book<'_, '_, '_>,
    input: &mut R,
    output: &mut W,
) -> io::Result<()>
    requires { Law book.old }
    ensures kept { Kept book.old book.new }
    ensures ok { OnOk result (Serves (net network.now) book.old.extent.counts (tables book.old)
        (R.remaining input.old) (R.remaining input.new)
        (W.contents output.old) (W.contents output.new) (tables book.new)) }
{
    let mut chunk = vec![in alloc; 0u8; CHUNK]?;
    answer_chunks(alloc, network, book, chunk.as_mut_slice(), input, output)
}
