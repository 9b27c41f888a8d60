use super::asked::{all, cheapest, costs, on, told};
use super::sketch::{LARGEST, NONE, Sketch, load};
use cost::fee::Fee;
use cost::sum::Sum;
use fault::book::BookFault;
use search::label::Label;
use search::search;
use std::alloc::{AllocError, Global};
use std::test::Fail;

// A ring of 63 nodes, which node 0 enters at node 1 on channel 0 and leaves from node 62 on channel
// 15. Node 63 converts each channel into the next, so the ring has to be gone round 15 times.
fn ring(heap: Global) -> Result<Vec<u8>, AllocError> {
    let mut spans = vec![in heap; (0, 1)]?;
    for node in 1u8..63 {
        spans.push((node, node + 1))?;
    }
    spans.push((63, 1))?;
    spans.push((62, 0))?;
    let mut tariffs = vec![in heap; LARGEST; 65 * 16]?;
    let table = tariffs.as_mut_slice();
    keep_one(table, 0, 0);
    keep_one(table, 64, 15);
    let mut converters = Vec::new(heap);
    for from in 0u8..15 {
        converters.push((63, from, from + 1, LARGEST))?;
    }
    let sketch = Sketch {
        nodes: 64,
        channels: 16,
        spans: spans.as_slice(),
        tariffs: tariffs.as_slice(),
        converters: converters.as_slice(),
    };
    sketch.plan(heap)
}

// Leaves a span one of its 16 channels.
fn keep_one(tariffs: &mut [u16], span: usize, kept: usize) {
    for channel in 0..16usize {
        if channel != kept {
            let entry = span.saturating_mul(16).saturating_add(channel);
            if let Some(tariff) = tariffs.get_mut(entry) {
                *tariff = NONE;
            }
        }
    }
}

// Spans from node 0 to every other node and back, on all channels, each at tariff 5.
fn star(heap: Global) -> Result<Vec<u8>, AllocError> {
    let mut spans = Vec::new(heap);
    for node in 1u8..64 {
        spans.push((0, node))?;
        spans.push((node, 0))?;
    }
    let tariffs = vec![in heap; 5; 126 * 16]?;
    let sketch = Sketch {
        nodes: 64,
        channels: 16,
        spans: spans.as_slice(),
        tariffs: tariffs.as_slice(),
        converters: &[],
    };
    sketch.plan(heap)
}

// A path of 1,008 steps and 15 conversions, all at the largest tariff.
#[test]
fn the_longest_way(rt: HostRuntime) -> Result<(), Fail> {
    let bytes = ring(rt.alloc())?;
    let mut tariffs = [0u16; 1040];
    let mut converters = [0u16; 16_384];
    let network = load(bytes.as_slice(), &mut tariffs, &mut converters)?;
    let moment = all(&network);
    let sum = 67_041_282;
    assert_eq!(rt; costs(&rt, &moment, 0, 0), told(sum, (15, sum), LARGEST));
    let mut labels: [Label<Fee>; 1024] = [None; 1024];
    let mut path = [on(0, 0); 1024];
    let by_sum = cheapest(&rt, &Sum, &moment, (0, 0), &mut labels, &mut path);
    assert_eq!(rt; by_sum, Some((Fee::new(sum), 1008)));
    Ok(())
}

// All 1,024 arrivals become known, and 1,008 of them are open at once.
#[test]
fn the_widest_way(rt: HostRuntime) -> Result<(), Fail> {
    let bytes = star(rt.alloc())?;
    let mut tariffs = [0u16; 2016];
    let mut converters = [0u16; 16_384];
    let network = load(bytes.as_slice(), &mut tariffs, &mut converters)?;
    let moment = all(&network);
    assert_eq!(rt; costs(&rt, &moment, 0, 0), told(10, (0, 10), 5));
    assert_eq!(rt; costs(&rt, &moment, 63, 1), told(10, (0, 10), 5));
    let mut labels: [Label<Fee>; 1023] = [None; 1023];
    let answer = search(&Sum, &moment, 0, 0, &mut labels);
    assert_eq!(rt; answer.err(), Some(BookFault::WorkTable));
    Ok(())
}
