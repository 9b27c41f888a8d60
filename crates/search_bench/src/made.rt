use super::draws::Draws;
use network::span::Span;
use network::{ABSENT, Network};
use records::channel::{Channel, Hold};
use records::state::SpanState;
use std::alloc::{AllocError, Global};

// How many queries there are for each size.
const QUERIES: u32 = 64;

// The size of a made network: its nodes and channels, and how many of a hundred pairs of channels
// have a converter, at each node.
#[derive(Clone, Copy)]
pub(crate) struct Size {
    pub(crate) nodes: u32,
    pub(crate) channels: u32,
    pub(crate) share: u32,
}

// From where to where a path is wanted.
#[derive(Clone, Copy)]
pub(crate) struct Query {
    pub(crate) from: u8,
    pub(crate) to: u8,
}

impl Size {
    // Four spans leave each node.
    pub(crate) fn spans(self) -> u32 {
        self.nodes.wrapping_mul(4)
    }

    // How many channels all spans have.
    fn span_channels(self) -> u32 {
        self.spans().wrapping_mul(self.channels)
    }

    // A node, counted on past the last.
    fn node(self, count: u32) -> u8 {
        byte(count.checked_rem(self.nodes).unwrap_or(0))
    }
}

// The low byte of a number.
fn byte(number: u32) -> u8 {
    (number & 0xff) as u8
}

// Adds two bytes, the high one first.
fn push_half(bytes: &mut Vec<u8>, number: u32) -> Result<(), AllocError> {
    bytes.push(byte(number >> 8))?;
    bytes.push(byte(number))?;
    Ok(())
}

// How many bytes a section has.
fn length_of(section: &[u8]) -> u32 {
    u32::try_from(section.len()).unwrap_or(u32::MAX)
}

// Adds a section's pair, and tells where the next section begins.
fn push_pair(bytes: &mut Vec<u8>, offset: u32, section: &[u8]) -> Result<u32, AllocError> {
    let length = length_of(section);
    push_half(bytes, offset >> 16)?;
    push_half(bytes, offset)?;
    push_half(bytes, length >> 16)?;
    push_half(bytes, length)?;
    Ok(offset.wrapping_add(length))
}

// The channel numbers: 0 and up.
fn number_section(heap: Global, size: Size) -> Result<Vec<u8>, AllocError> {
    let mut bytes = Vec::new(heap);
    for number in 0..size.channels {
        push_half(&mut bytes, number)?;
    }
    Ok(bytes)
}

// The spans, each to another node than its tail.
fn span_section(heap: Global, size: Size, draws: &mut Draws) -> Result<Vec<u8>, AllocError> {
    let mut bytes = Vec::new(heap);
    for span in 0..size.spans() {
        let on = draws.below(size.nodes.wrapping_sub(1)).wrapping_add(1);
        bytes.push(size.node(span))?;
        bytes.push(size.node(span.wrapping_add(on)))?;
    }
    Ok(bytes)
}

// A tariff from 1 to 1,000.
fn tariff(draws: &mut Draws) -> u32 {
    draws.below(1000).wrapping_add(1)
}

// The tariffs: three of four channels are carried.
fn tariff_section(heap: Global, size: Size, draws: &mut Draws) -> Result<Vec<u8>, AllocError> {
    let mut bytes = Vec::new(heap);
    for _ in 0..size.span_channels() {
        let carried = draws.below(4) != 0;
        let number = if carried {
            tariff(draws)
        } else {
            u32::from(ABSENT)
        };
        push_half(&mut bytes, number)?;
    }
    Ok(bytes)
}

// The converters of a node from one channel.
fn push_converters(
    bytes: &mut Vec<u8>,
    size: Size,
    draws: &mut Draws,
    node: u32,
    from: u32,
) -> Result<(), AllocError> {
    for to in 0..size.channels {
        if to != from && draws.below(100) < size.share {
            bytes.push(byte(node))?;
            bytes.push(byte(from))?;
            bytes.push(byte(to))?;
            push_half(bytes, tariff(draws))?;
        }
    }
    Ok(())
}

// The converters.
fn converter_section(heap: Global, size: Size, draws: &mut Draws) -> Result<Vec<u8>, AllocError> {
    let mut bytes = Vec::new(heap);
    for node in 0..size.nodes {
        for from in 0..size.channels {
            push_converters(&mut bytes, size, draws, node, from)?;
        }
    }
    Ok(bytes)
}

// The plan of a made network.
pub(crate) fn plan_bytes(
    heap: Global,
    size: Size,
    draws: &mut Draws,
) -> Result<Vec<u8>, AllocError> {
    let numbers = number_section(heap, size)?;
    let spans = span_section(heap, size, draws)?;
    let tariffs = tariff_section(heap, size, draws)?;
    let converters = converter_section(heap, size, draws)?;
    let mut bytes = Vec::new(heap);
    bytes.extend_from_slice(&[1, 1, byte(size.nodes), byte(size.channels)])?;
    push_half(&mut bytes, size.spans())?;
    push_half(&mut bytes, length_of(converters.as_slice()) / 5)?;
    let mut offset = 40;
    for section in [&numbers, &spans, &tariffs, &converters] {
        offset = push_pair(&mut bytes, offset, section.as_slice())?;
    }
    for section in [&numbers, &spans, &tariffs, &converters] {
        bytes.extend_from_slice(section.as_slice())?;
    }
    Ok(bytes)
}

// The records of the channels: one of ten is held.
pub(crate) fn held(
    heap: Global,
    size: Size,
    draws: &mut Draws,
) -> Result<Vec<Channel>, AllocError> {
    let mut channels = Vec::new(heap);
    for _ in 0..size.span_channels() {
        let channel = match draws.below(10) {
            0 => Some(Hold {
                circuit: 0,
                next: None,
            }),
            _ => None,
        };
        channels.push(channel)?;
    }
    Ok(channels)
}

// Whether each span is open: those that lead to node 0 are shut, so that nothing leads there.
pub(crate) fn states(heap: Global, network: &Network) -> Result<Vec<SpanState>, AllocError> {
    let mut states = Vec::new(heap);
    for span in 0..network.counts().spans {
        let state = match network.span(span) {
            Some(Span { head: 0, .. }) => SpanState::Shut,
            _ => SpanState::Open,
        };
        states.push(state)?;
    }
    Ok(states)
}

// What is asked, between any two nodes or from one to itself.
pub(crate) fn queries(
    heap: Global,
    size: Size,
    draws: &mut Draws,
) -> Result<Vec<Query>, AllocError> {
    let mut queries = Vec::new(heap);
    for _ in 0..QUERIES {
        let from = byte(draws.below(size.nodes));
        let to = byte(draws.below(size.nodes));
        queries.push(Query { from, to })?;
    }
    Ok(queries)
}
