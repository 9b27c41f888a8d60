ghost use Rattle.std.specs.Prelude.{string_bytes, OnOk, OnErr};
ghost use Rattle.network.specs.Net.{net};
ghost use Rattle.book.specs.State.{tables, Kept};
ghost use Rattle.desk.specs.Feeding.{desk_of, Turns, Takes, Feeds, Ends, Appends, Leaves, InPart};

use super::line::Line;
use super::replying::reply;
use book::Book;
use network::Network;
use std::fmt;
use ticket::read;

// Book, line and text travel together here. They are no struct: one that is made of three `&mut` in
// place is not covered, and of one that a function makes the book's last value is not known.

// Answers the line, writes the reply and a byte 10, and begins another line.
fn end_line(
    network: &Network<'_, '_>,
    book: &mut Book<'_, '_, '_>,
    line: &mut Line,
    out: &mut String,
) -> fmt::Result
    ensures kept { Kept book.old book.new }
    ensures ok { OnOk result (Appends
        (Turns (net network.now) book.old.extent.counts (desk_of book.old line.old))
        (string_bytes out.old) (string_bytes out.new) (desk_of book.new line.new)) }
    ensures err { OnErr result (Leaves
        (Turns (net network.now) book.old.extent.counts (desk_of book.old line.old))
        (tables book.new)) }
{
    reply(network, book, read(line.bytes()), out)?;
    line.clear();
    Ok(())
}

// Takes one byte of the input.
#[tactic(auto, using(crate::proofs::Going::taken_then))]
fn take_byte(
    network: &Network<'_, '_>,
    book: &mut Book<'_, '_, '_>,
    line: &mut Line,
    byte: u8,
    out: &mut String,
) -> fmt::Result
    ensures kept { Kept book.old book.new }
    ensures ok { OnOk result (Appends
        (Takes (net network.now) book.old.extent.counts (desk_of book.old line.old) byte)
        (string_bytes out.old) (string_bytes out.new) (desk_of book.new line.new)) }
    ensures err { OnErr result (Leaves
        (Takes (net network.now) book.old.extent.counts (desk_of book.old line.old) byte)
        (tables book.new)) }
{
    if byte == b'\n' {
        return end_line(network, book, line, out);
    }
    line.push(byte);
    Ok(())
}

// Takes the next chunk of the input: answers each line that ends in it, keeps the one that does not.
pub fn feed(
    network: &Network<'_, '_>,
    book: &mut Book<'_, '_, '_>,
    line: &mut Line,
    chunk: &[u8],
    out: &mut String,
) -> fmt::Result
    ensures kept { Kept book.old book.new }
    ensures ok { OnOk result (Appends
        (Feeds (net network.now) book.old.extent.counts (desk_of book.old line.old) chunk.now)
        (string_bytes out.old) (string_bytes out.new) (desk_of book.new line.new)) }
    ensures err { OnErr result (InPart
        (net network.now) book.old.extent.counts (desk_of book.old line.old) chunk.now
        (tables book.new)) }
{
    for byte in chunk {
        take_byte(network, book, line, *byte, out)?;
    }
    Ok(())
}

// The end of the input: a last line that lacks its byte 10 is answered.
#[tactic(auto, using(crate::proofs::Going::ended_then))]
pub fn finish(
    network: &Network<'_, '_>,
    book: &mut Book<'_, '_, '_>,
    line: &mut Line,
    out: &mut String,
) -> fmt::Result
    ensures kept { Kept book.old book.new }
    ensures ok { OnOk result (Appends
        (Ends (net network.now) book.old.extent.counts (desk_of book.old line.old))
        (string_bytes out.old) (string_bytes out.new) (desk_of book.new line.new)) }
    ensures err { OnErr result (Leaves
        (Ends (net network.now) book.old.extent.counts (desk_of book.old line.old))
        (tables book.new)) }
{
    if line.is_empty() {
        return Ok(());
    }
    end_line(network, book, line, out)
}
