//! Examples of semilightpaths, over the sample network and over one in which a path has to come
//! back to a node.
#![tactic(auto)]

#[cfg(test)]
mod tests {
    use cost::fee::Fee;
    use cost::few::Few;
    use cost::sum::Sum;
    use cost::tally::Tally;
    use cost::worst::Worst;
    use moment::Moment;
    use network::Network;
    use network::step::Step;
    use plan::reader::check as check_plan;
    use records::channel::{Channel, Hold};
    use records::state::SpanState;
    use semilightpath::path::{cost, distinct, is_semilightpath};
    use std::process::Abort;
    use std::test::Fail;

    // 4 nodes, 2 channels, 4 spans, 1 converter.
    const SAMPLE: [u8; 73] = [
        1, 1, 4, 2, 0, 4, 0, 1, 0, 0, 0, 40, 0, 0, 0, 4, 0, 0, 0, 44, 0, 0, 0, 8, 0, 0, 0, 52, 0,
        0, 0, 16, 0, 0, 0, 68, 0, 0, 0, 5, 0, 0, 0, 1, 0, 1, 1, 3, 0, 2, 2, 3, 0, 2, 255, 255, 255,
        255, 0, 3, 0, 4, 0, 4, 0, 5, 255, 255, 1, 0, 1, 0, 1,
    ];

    // 4 nodes, 3 channels, 4 spans, 2 converters.
    const DETOUR: [u8; 88] = [
        1, 1, 4, 3, 0, 4, 0, 2, 0, 0, 0, 40, 0, 0, 0, 6, 0, 0, 0, 46, 0, 0, 0, 8, 0, 0, 0, 54, 0,
        0, 0, 24, 0, 0, 0, 78, 0, 0, 0, 10, 0, 0, 0, 1, 0, 2, 0, 1, 1, 2, 1, 3, 3, 1, 0, 2, 255,
        255, 255, 255, 255, 255, 255, 255, 0, 3, 255, 255, 0, 1, 255, 255, 255, 255, 0, 1, 255,
        255, 1, 0, 1, 0, 1, 1, 1, 2, 0, 1,
    ];

    const HELD: Channel = Some(Hold {
        circuit: 9,
        next: None,
    });

    // A span on a channel.
    fn on(span: u16, channel: u8) -> Step {
        Step { span, channel }
    }

    const BY_NODE_1: [Step; 2] = [
        Step {
            span: 0,
            channel: 0,
        },
        Step {
            span: 1,
            channel: 1,
        },
    ];

    const BY_NODE_2: [Step; 2] = [
        Step {
            span: 2,
            channel: 0,
        },
        Step {
            span: 3,
            channel: 0,
        },
    ];

    // Whether a path is a semilightpath at a moment.
    fn leads(moment: &Moment, from: usize, to: usize, path: &[Step]) -> bool {
        is_semilightpath(moment, from, to, path)
    }

    // What a path costs by each kind.
    fn costs(moment: &Moment, path: &[Step]) -> (Fee, Tally, u16) {
        (
            cost(&Sum, moment, path),
            cost(&Few, moment, path),
            cost(&Worst, moment, path),
        )
    }

    // What a path costs by each kind, told in numbers.
    fn price(sum: u32, conversions: u32, worst: u16) -> (Fee, Tally, u16) {
        (Fee::new(sum), Tally::new(conversions, Fee::new(sum)), worst)
    }

    // Whether each of the two paths leads from node 0 to node 3.
    fn both(moment: &Moment) -> [bool; 2] {
        [
            leads(moment, 0, 3, &BY_NODE_1),
            leads(moment, 0, 3, &BY_NODE_2),
        ]
    }

    // What is no semilightpath from node 0 to node 3 whatever is open and free.
    fn none(rt: &impl Abort, moment: &Moment) {
        let no = [
            leads(moment, 0, 3, &[]),
            leads(moment, 0, 3, &[on(0, 0)]),
            leads(moment, 0, 3, &[on(1, 1)]),
            leads(moment, 0, 3, &[on(1, 1), on(0, 0)]),
            leads(moment, 0, 3, &[on(2, 1), on(3, 0)]),
            leads(moment, 0, 3, &[on(0, 1), on(1, 1)]),
            leads(moment, 0, 3, &[on(4, 0)]),
            leads(moment, 0, 0, &[]),
            leads(moment, 256, 3, &BY_NODE_1),
            leads(moment, 3, 0, &BY_NODE_1),
        ];
        assert_eq!(rt; no, [false; 10]);
    }

    #[test]
    fn two_paths(rt: HostRuntime) -> Result<(), Fail> {
        let mut tariffs = [0u16; 8];
        let mut converters = [0u16; 16];
        let plan = check_plan(&SAMPLE, &tariffs, &converters)?;
        plan.load(&mut tariffs, &mut converters);
        let network = plan.network(&tariffs, &converters);
        let channels: [Channel; 8] = [None; 8];
        let spans = [SpanState::Open; 4];
        let moment = Moment {
            network: &network,
            channels: &channels,
            spans: &spans,
        };
        assert_eq!(rt; both(&moment), [true, true]);
        assert_eq!(rt; costs(&moment, &BY_NODE_1), price(6, 1, 3));
        assert_eq!(rt; costs(&moment, &BY_NODE_2), price(9, 0, 5));
        none(&rt, &moment);
        Ok(())
    }

    // A network by itself is one in which all is open and free.
    #[test]
    fn the_network_alone(rt: HostRuntime) -> Result<(), Fail> {
        let mut tariffs = [0u16; 8];
        let mut converters = [0u16; 16];
        let plan = check_plan(&SAMPLE, &tariffs, &converters)?;
        plan.load(&mut tariffs, &mut converters);
        let network = plan.network(&tariffs, &converters);
        // A copy, since one reference cannot be passed for both.
        let fares = network;
        assert!(rt; is_semilightpath(&fares, 0, 3, &BY_NODE_1), "by node 1");
        assert_eq!(rt; cost(&Sum, &fares, &BY_NODE_1), Fee::new(6));
        Ok(())
    }

    #[test]
    fn shut_and_held(rt: HostRuntime) -> Result<(), Fail> {
        let mut tariffs = [0u16; 8];
        let mut converters = [0u16; 16];
        let plan = check_plan(&SAMPLE, &tariffs, &converters)?;
        plan.load(&mut tariffs, &mut converters);
        let network = plan.network(&tariffs, &converters);
        let mut channels: [Channel; 8] = [None; 8];
        let moment = Moment {
            network: &network,
            channels: &channels,
            spans: &[SpanState::Shut],
        };
        assert_eq!(rt; both(&moment), [false, true]);
        assert_eq!(rt; costs(&moment, &BY_NODE_1), price(65538, 1, 65534));
        assert_eq!(rt; costs(&moment, &BY_NODE_2), price(9, 0, 5));
        channels[4] = HELD;
        let moment = Moment {
            network: &network,
            channels: &channels[..5],
            spans: &[],
        };
        assert_eq!(rt; both(&moment), [true, false]);
        assert!(rt;
            !leads(&moment, 0, 3, &[on(2, 1), on(3, 0)]),
            "on channel 1 instead"
        );
        Ok(())
    }

    #[test]
    fn a_node_is_entered_twice(rt: HostRuntime) -> Result<(), Fail> {
        let mut tariffs = [0u16; 12];
        let mut converters = [0u16; 36];
        let plan = check_plan(&DETOUR, &tariffs, &converters)?;
        plan.load(&mut tariffs, &mut converters);
        let network = plan.network(&tariffs, &converters);
        let moment = Moment {
            network: &network,
            channels: &[],
            spans: &[],
        };
        assert!(rt;
            !leads(&moment, 0, 2, &[on(0, 0), on(1, 2)]),
            "two converters one after the other"
        );
        let detour = [on(0, 0), on(2, 1), on(3, 1), on(1, 2)];
        assert!(rt; leads(&moment, 0, 2, &detour), "node 1 twice");
        assert_eq!(rt; costs(&moment, &detour), price(9, 2, 3));
        let around = [on(2, 1), on(3, 1), on(2, 1)];
        assert!(rt; leads(&moment, 1, 3, &around), "a step twice");
        assert_eq!(rt; costs(&moment, &around), price(3, 0, 1));
        assert_eq!(rt; [distinct(&detour), distinct(&around)], [true, false]);
        Ok(())
    }
}
