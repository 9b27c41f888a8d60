ghost use Rattle.std.specs.Prelude.{◌≡◌, ◌<◌, ◌+◌, ◌/◌, ◌%◌, slice_set};

use at_book::sample::SAMPLE;
use fault::plan::LoadFault;
use network::Network;
use plan::reader::check as check_plan;

// The network of a plan, over two tables.
pub(crate) fn load<'t, 'c>(
    bytes: &[u8],
    tariffs: &'t mut [u16],
    converters: &'c mut [u16],
) -> Result<Network<'t, 'c>, LoadFault> {
    let plan = check_plan(bytes, tariffs, converters)?;
    plan.load(tariffs, converters);
    Ok(plan.network(tariffs, converters))
}

// The plan of the detour: 4 nodes, 3 channels, 4 spans. From 0 to 2 leads 0/0, 2/1, 3/1, 1/2 alone, which
// passes node 1 twice, and is converted there twice.
pub(crate) const DETOUR: [u8; 88] = [
    1, 1, 4, 3, 0, 4, 0, 2, 0, 0, 0, 40, 0, 0, 0, 6, 0, 0, 0, 46, 0, 0, 0, 8, 0, 0, 0, 54, 0, 0, 0,
    24, 0, 0, 0, 78, 0, 0, 0, 10, 0, 0, 0, 1, 0, 2, 0, 1, 1, 2, 1, 3, 3, 1, 0, 2, 255, 255, 255,
    255, 255, 255, 255, 255, 0, 3, 255, 255, 0, 1, 255, 255, 255, 255, 0, 1, 255, 255, 1, 0, 1, 0,
    1, 1, 1, 2, 0, 1,
];

// Where the sample's plan tells the tails of its spans, and their tariffs on both channels.
pub(crate) const TAILS: [usize; 4] = [44, 46, 48, 50];

pub(crate) const TARIFFS: [[usize; 2]; 4] = [[52, 54], [56, 58], [60, 62], [64, 66]];

// Where it tells its converter's node, and the converter's tariff.
pub(crate) const CONVERTER_NODE: usize = 68;

pub(crate) const CONVERTER_TARIFF: usize = 71;

// The sample's plan with a byte changed.
pub(crate) fn with_byte(mut plan: [u8; 73], place: usize, byte: u8) -> [u8; 73]
    ensures { result ≡ slice_set plan place byte }
{
    if place < plan.len() {
        plan[place] = byte;
    }
    plan
}

// The same, with a number of 16 bits.
pub(crate) fn with_number(plan: [u8; 73], place: usize, number: u16) -> [u8; 73]
    requires { place < 72 }
    ensures { result ≡ slice_set (slice_set plan place (number / 256)) (place + 1) (number % 256) }
{
    let [high, low] = number.to_be_bytes();
    with_byte(with_byte(plan, place, high), place + 1, low)
}
