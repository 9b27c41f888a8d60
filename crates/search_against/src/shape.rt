use super::draws::Draws;
use records::channel::{Channel, Hold};
use records::state::SpanState;
use std::alloc::{AllocError, Global};

// Which tariffs a network has.
#[derive(Clone, Copy)]
pub(crate) enum Tariffs {
    Zero,
    Small,
    Any,
    Largest,
}

// What the networks of a group are like: counts from one number to another, and chances of 16 that a
// span carries a channel, that a node has a converter, that a span is shut and that a channel is held.
#[derive(Clone, Copy)]
pub(crate) struct Shape {
    pub(crate) nodes: (u16, u16),
    pub(crate) channels: (u16, u16),
    pub(crate) spans: (u16, u16),
    pub(crate) tariffs: Tariffs,
    pub(crate) carried: u16,
    pub(crate) converted: u16,
    pub(crate) shut: u16,
    pub(crate) held: u16,
}

// How many nodes, channels and spans a network has.
#[derive(Clone, Copy)]
struct Size {
    nodes: u16,
    channels: u16,
    spans: u16,
}

// The low byte of a number.
fn low(number: u16) -> u8 {
    number.to_be_bytes()[1]
}

impl Shape {
    // A tariff.
    fn tariff(self, draws: &mut Draws) -> u16 {
        match self.tariffs {
            Tariffs::Zero => 0,
            Tariffs::Small => draws.below(10),
            Tariffs::Any => draws.below(65_535),
            Tariffs::Largest => 65_534,
        }
    }

    // The size of a network. A single node has no spans.
    fn size(self, draws: &mut Draws) -> Size {
        let nodes = draws.within(self.nodes);
        let channels = draws.within(self.channels);
        let spans = draws.within(self.spans);
        Size {
            nodes,
            channels,
            spans: if nodes < 2 { 0 } else { spans },
        }
    }

    // The spans: tail and head, which differ.
    fn spans(self, heap: Global, draws: &mut Draws, size: Size) -> Result<Vec<u8>, AllocError> {
        let mut section = Vec::new(heap);
        for _ in 0..size.spans {
            let tail = draws.below(size.nodes);
            let other = draws.below(size.nodes.saturating_sub(1));
            let head = other.saturating_add(u16::from(other >= tail));
            section.extend_from_slice(&[low(tail), low(head)])?;
        }
        Ok(section)
    }

    // The tariffs of all channels of all spans, 65,535 where a channel is not carried.
    fn fares(self, heap: Global, draws: &mut Draws, size: Size) -> Result<Vec<u8>, AllocError> {
        let mut section = Vec::new(heap);
        for _ in 0..size.spans.saturating_mul(size.channels) {
            let tariff = if draws.comes(self.carried) {
                self.tariff(draws)
            } else {
                65_535
            };
            section.extend_from_slice(&tariff.to_be_bytes())?;
        }
        Ok(section)
    }

    // The converters of a node from one channel.
    fn turns(
        self,
        draws: &mut Draws,
        size: Size,
        node: u16,
        from: u16,
        section: &mut Vec<u8>,
    ) -> Result<(), AllocError> {
        for to in 0..size.channels {
            if from != to && draws.comes(self.converted) {
                let [high, rest] = self.tariff(draws).to_be_bytes();
                section.extend_from_slice(&[low(node), low(from), low(to), high, rest])?;
            }
        }
        Ok(())
    }

    // The converters of all nodes.
    fn converters(
        self,
        heap: Global,
        draws: &mut Draws,
        size: Size,
    ) -> Result<Vec<u8>, AllocError> {
        let mut section = Vec::new(heap);
        for node in 0..size.nodes {
            for from in 0..size.channels {
                self.turns(draws, size, node, from, &mut section)?;
            }
        }
        Ok(section)
    }

    // The bytes of a plan.
    pub(crate) fn plan(self, heap: Global, draws: &mut Draws) -> Result<Vec<u8>, AllocError> {
        let size = self.size(draws);
        let numbers = numbers(heap, size.channels)?;
        let spans = self.spans(heap, draws, size)?;
        let tariffs = self.fares(heap, draws, size)?;
        let converters = self.converters(heap, draws, size)?;
        bind(
            heap,
            size,
            [
                numbers.as_slice(),
                spans.as_slice(),
                tariffs.as_slice(),
                converters.as_slice(),
            ],
        )
    }

    // Which spans are shut.
    pub(crate) fn shut(self, draws: &mut Draws, spans: &mut [SpanState]) {
        for state in spans.iter_mut() {
            *state = if draws.comes(self.shut) {
                SpanState::Shut
            } else {
                SpanState::Open
            };
        }
    }

    // Which channels are held.
    pub(crate) fn held(self, draws: &mut Draws, channels: &mut [Channel]) {
        for record in channels.iter_mut() {
            *record = draws.comes(self.held).then_some(HOLD);
        }
    }
}

// What holds a channel.
const HOLD: Hold = Hold {
    circuit: 9,
    next: None,
};

// The channels' numbers, which nothing here depends on.
fn numbers(heap: Global, channels: u16) -> Result<Vec<u8>, AllocError> {
    let mut section = Vec::new(heap);
    for number in 0..channels {
        section.extend_from_slice(&number.to_be_bytes())?;
    }
    Ok(section)
}

// A length as a number of 32 bits, as the pairs of a plan tell it.
fn wide(length: usize) -> u32 {
    u32::try_from(length).unwrap_or(0)
}

// A plan of its four sections, one after the other behind the header.
fn bind(heap: Global, size: Size, sections: [&[u8]; 4]) -> Result<Vec<u8>, AllocError> {
    let converters = u16::try_from(sections[3].len() / 5).unwrap_or(0);
    let mut bytes = Vec::new(heap);
    bytes.extend_from_slice(&[1, 1, low(size.nodes), low(size.channels)])?;
    bytes.extend_from_slice(&size.spans.to_be_bytes())?;
    bytes.extend_from_slice(&converters.to_be_bytes())?;
    let mut start = 40u32;
    for section in sections {
        let length = wide(section.len());
        bytes.extend_from_slice(&start.to_be_bytes())?;
        bytes.extend_from_slice(&length.to_be_bytes())?;
        start = start.saturating_add(length);
    }
    join(bytes, sections)
}

// The sections behind what comes first.
fn join(mut bytes: Vec<u8>, sections: [&[u8]; 4]) -> Result<Vec<u8>, AllocError> {
    for section in sections {
        bytes.extend_from_slice(section)?;
    }
    Ok(bytes)
}
