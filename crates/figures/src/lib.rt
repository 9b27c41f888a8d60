//! The figures of the sample network, as they are worked by hand.
#![tactic(auto)]

ghost use Rattle.std.specs.Prelude.{◌≡◌};
ghost use Rattle.network.specs.Net.{net};
ghost use Rattle.figures.specs.Figures.{WorkedFigures};
ghost use Rattle.figures.specs.Sample.{sample};

use network::counts::Counts;
use network::extent::Extent;
use network::spacing::Spacing;
use network::span::Span;
use network::{ABSENT, Network};

// The tariffs of the sample network's spans, channel by channel.
static TARIFFS: [u16; 8] = [2, ABSENT, ABSENT, 3, 4, 4, 5, ABSENT];

// Its converters, node by node: node 1 changes channel 0 into channel 1.
static CONVERTERS: [u16; 16] = [
    ABSENT, ABSENT, ABSENT, ABSENT, ABSENT, 1, ABSENT, ABSENT, ABSENT, ABSENT, ABSENT, ABSENT,
    ABSENT, ABSENT, ABSENT, ABSENT,
];

// The sample network. So what the figures speak of is a network, within the limits of every one.
pub fn sample_network() -> Network<'static, 'static>
    ensures { net result ≡ sample }
{
    let extent = Extent::new(Counts {
        nodes: 4,
        spans: 4,
        channels: 2,
    });
    let mut numbers = [0; 16];
    numbers[1] = 1;
    let mut ends = [Span { tail: 0, head: 1 }; 256];
    ends[1] = Span { tail: 1, head: 3 };
    ends[2] = Span { tail: 0, head: 2 };
    ends[3] = Span { tail: 2, head: 3 };
    Network::make(
        extent,
        Spacing::Ghz100,
        numbers,
        ends,
        &TARIFFS,
        &CONVERTERS,
    )
}

// Each figure of docs/worked-example.md comes out of the definitions.
pub fn worked_figures()
    ensures { WorkedFigures }
{}
