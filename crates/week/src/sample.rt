use super::outcome::Outcome;
use super::told::Told;
use super::trip::Trip;
use super::week;
use at_book::sample::{SAMPLE, STALE, Tables};
use book::status::{State, Status};
use cost::fee::Fee;
use cost::tally::Tally;
use fault::book::BookFault;
use label::Label as Name;
use plan::reader::check as check_plan;
use records::circuit::Circuit;
use records::state::SpanState;
use search::label::Label;
use slip::setting::{BLANK, Port, Setting};
use std::process::Abort;
use std::test::Fail;

// A week of the sample network, in which this span is shut.
fn live(
    rt: &impl Abort,
    span: u16,
    tables: &mut Tables,
    settings: &mut [Setting],
) -> Result<Result<Told, BookFault>, Fail> {
    let mut tariffs = [0u16; 8];
    let mut converters = [0u16; 16];
    let plan = check_plan(&SAMPLE, &tariffs, &converters)?;
    plan.load(&mut tariffs, &mut converters);
    let network = plan.network(&tariffs, &converters);
    let mut sums: [Label<Fee>; 8] = [None; 8];
    let mut tallies: [Label<Tally>; 8] = [None; 8];
    let trip = Trip {
        circuit: 1,
        other: 2,
        from: 0,
        to: 3,
        span,
    };
    let Tables {
        channels,
        circuits,
        spans,
    } = tables;
    match week(
        &network,
        5,
        trip,
        channels,
        circuits,
        spans,
        &mut sums,
        &mut tallies,
        settings,
    ) {
        Outcome::Refused(fault) => Ok(Err(fault)),
        Outcome::Lived(told, book) => {
            assert_eq!(rt; [book.look(1), book.look(2)], [Ok(None), Ok(None)]);
            Ok(Ok(told))
        }
    }
}

// A side of a setting, on channel 0.
fn port(span: u16) -> Option<Port> {
    let label = Name { bits: 0x2200_0000 };
    Some(Port { span, label })
}

// The slip of a circuit that leads from 0 to 3 by node 2.
fn way_by_two() -> [Setting; 3] {
    [
        Setting {
            node: 0,
            input: None,
            output: port(2),
        },
        Setting {
            node: 2,
            input: port(2),
            output: port(3),
        },
        Setting {
            node: 3,
            input: port(3),
            output: None,
        },
    ]
}

// What is answered about the circuit, whichever span is shut.
fn circuit_lives(rt: &impl Abort, told: Told, settings: [Setting; 4]) {
    let status = Status {
        state: State::Lit,
        from: 0,
        to: 3,
        steps: 2,
    };
    let way = way_by_two();
    assert_eq!(rt; told.lit, Ok(1));
    assert_eq!(rt; told.seen, Ok(Some(status)));
    assert_eq!(rt; told.written, Ok(3));
    assert_eq!(rt; settings, [way[0], way[1], way[2], BLANK]);
    assert_eq!(rt; told.shut, Ok(()));
    assert_eq!(rt; told.worst, Ok(5));
    assert_eq!(rt; told.darkened, Ok(2));
}

// What the tables hold after a week: all is free, and a span shut.
fn only_shut(rt: &impl Abort, tables: Tables, span: usize) {
    for i in 0..8 {
        assert!(rt; tables.channels[i] == None, "a channel");
    }
    for i in 0..128 {
        assert!(rt; tables.circuits[i] == Circuit::Free, "a circuit");
    }
    for i in 0..4 {
        assert_eq!(rt; tables.spans[i] == SpanState::Shut, i == span);
    }
}

#[test]
fn another_way_is_left(rt: HostRuntime) -> Result<(), Fail> {
    let mut tables = STALE;
    let mut settings = [BLANK; 4];
    let told = live(&rt, 3, &mut tables, &mut settings)?.expect(&rt, "room");
    circuit_lives(&rt, told, settings);
    assert_eq!(rt; told.without, Ok(Fee::new(6)));
    assert_eq!(rt; told.given_back, Ok(2));
    only_shut(&rt, tables, 3);
    Ok(())
}

#[test]
fn no_other_way_is_left(rt: HostRuntime) -> Result<(), Fail> {
    let mut tables = STALE;
    let mut settings = [BLANK; 4];
    let told = live(&rt, 0, &mut tables, &mut settings)?.expect(&rt, "room");
    circuit_lives(&rt, told, settings);
    assert_eq!(rt; told.without, Err(BookFault::NoPath));
    assert_eq!(rt; told.given_back, Err(BookFault::NoPath));
    only_shut(&rt, tables, 0);
    Ok(())
}
