use fault::plan::LoadFault;
use network::Network;
use plan::reader::check;
use std::alloc::{AllocError, Global};

// What a table holds where a channel is not carried.
pub(crate) const NONE: u16 = 65_535;

// The largest tariff.
pub(crate) const LARGEST: u16 = 65_534;

// A network, told in short. The channels' numbers are 0, 1 and so on.
#[derive(Clone, Copy)]
pub(crate) struct Sketch<'s> {
    pub(crate) nodes: u8,
    pub(crate) channels: u8,
    pub(crate) spans: &'s [(u8, u8)],
    pub(crate) tariffs: &'s [u16],
    pub(crate) converters: &'s [(u8, u8, u8, u16)],
}

impl Sketch<'_> {
    // The channels' numbers.
    fn numbers(self, heap: Global) -> Result<Vec<u8>, AllocError> {
        let mut section = Vec::new(heap);
        for number in 0..self.channels {
            section.extend_from_slice(&[0, number])?;
        }
        Ok(section)
    }

    // The spans.
    fn spans(self, heap: Global) -> Result<Vec<u8>, AllocError> {
        let mut section = Vec::new(heap);
        for (tail, head) in self.spans {
            section.extend_from_slice(&[*tail, *head])?;
        }
        Ok(section)
    }

    // The spans' tariffs.
    fn tariffs(self, heap: Global) -> Result<Vec<u8>, AllocError> {
        let mut section = Vec::new(heap);
        for tariff in self.tariffs {
            section.extend_from_slice(&tariff.to_be_bytes())?;
        }
        Ok(section)
    }

    // The converters.
    fn converters(self, heap: Global) -> Result<Vec<u8>, AllocError> {
        let mut section = Vec::new(heap);
        for (node, from, to, tariff) in self.converters {
            let [high, low] = tariff.to_be_bytes();
            section.extend_from_slice(&[*node, *from, *to, high, low])?;
        }
        Ok(section)
    }

    // The bytes of its plan.
    pub(crate) fn plan(self, heap: Global) -> Result<Vec<u8>, AllocError> {
        let numbers = self.numbers(heap)?;
        let spans = self.spans(heap)?;
        let tariffs = self.tariffs(heap)?;
        let converters = self.converters(heap)?;
        let mut bytes = Vec::new(heap);
        bytes.extend_from_slice(&[1, 1, self.nodes, self.channels])?;
        bytes.extend_from_slice(&short(self.spans.len()))?;
        bytes.extend_from_slice(&short(self.converters.len()))?;
        bind(
            bytes,
            [
                numbers.as_slice(),
                spans.as_slice(),
                tariffs.as_slice(),
                converters.as_slice(),
            ],
        )
    }
}

// A count in two bytes.
fn short(count: usize) -> [u8; 2] {
    u16::try_from(count).unwrap_or(0).to_be_bytes()
}

// The pairs and the sections, one section after the other, behind the header's counts.
fn bind(mut bytes: Vec<u8>, sections: [&[u8]; 4]) -> Result<Vec<u8>, AllocError> {
    let mut start = 40u32;
    for section in sections {
        let length = u32::try_from(section.len()).unwrap_or(0);
        bytes.extend_from_slice(&start.to_be_bytes())?;
        bytes.extend_from_slice(&length.to_be_bytes())?;
        start = start.saturating_add(length);
    }
    join(bytes, sections)
}

// The sections behind what comes first.
fn join(mut bytes: Vec<u8>, sections: [&[u8]; 4]) -> Result<Vec<u8>, AllocError> {
    for section in sections {
        bytes.extend_from_slice(section)?;
    }
    Ok(bytes)
}

// The network of a plan, over two tables.
pub(crate) fn load<'t, 'c>(
    bytes: &[u8],
    tariffs: &'t mut [u16],
    converters: &'c mut [u16],
) -> Result<Network<'t, 'c>, LoadFault> {
    let plan = check(bytes, tariffs, converters)?;
    plan.load(tariffs, converters);
    Ok(plan.network(tariffs, converters))
}
