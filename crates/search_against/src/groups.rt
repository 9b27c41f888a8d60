use super::shape::{Shape, Tariffs};

// Networks that are alike, how many of them, and between how many nodes of each it is asked.
#[derive(Clone, Copy)]
pub(crate) struct Group {
    pub(crate) name: &'static str,
    pub(crate) seed: u32,
    pub(crate) networks: u16,
    pub(crate) ends: usize,
    pub(crate) shape: Shape,
}

// Small networks, of which all can be used.
const SMALL: Shape = Shape {
    nodes: (1, 10),
    channels: (1, 4),
    spans: (0, 24),
    tariffs: Tariffs::Small,
    carried: 12,
    converted: 5,
    shut: 0,
    held: 0,
};

// Small networks, of which some can be used.
const USED: Shape = Shape {
    shut: 3,
    held: 4,
    ..SMALL
};

// Networks with few ways, where some paths have to pass a node twice.
const NARROW: Shape = Shape {
    nodes: (5, 6),
    channels: (4, 4),
    spans: (8, 20),
    carried: 4,
    ..SMALL
};

// The largest networks.
const FULL: Shape = Shape {
    nodes: (64, 64),
    channels: (16, 16),
    spans: (256, 256),
    carried: 10,
    converted: 3,
    ..USED
};

// The groups, in the order in which they are asked.
pub(crate) const GROUPS: [Group; 11] = [
    Group {
        name: "small",
        seed: 1,
        networks: 120,
        ends: 10,
        shape: SMALL,
    },
    Group {
        name: "used in part",
        seed: 2,
        networks: 240,
        ends: 10,
        shape: USED,
    },
    Group {
        name: "free of charge",
        seed: 3,
        networks: 40,
        ends: 10,
        shape: Shape {
            tariffs: Tariffs::Zero,
            ..USED
        },
    },
    Group {
        name: "any tariffs",
        seed: 4,
        networks: 120,
        ends: 10,
        shape: Shape {
            tariffs: Tariffs::Any,
            ..USED
        },
    },
    Group {
        name: "the largest tariff throughout",
        seed: 5,
        networks: 40,
        ends: 10,
        shape: Shape {
            tariffs: Tariffs::Largest,
            ..USED
        },
    },
    Group {
        name: "no converters",
        seed: 6,
        networks: 40,
        ends: 10,
        shape: Shape {
            converted: 0,
            ..SMALL
        },
    },
    Group {
        name: "all converters",
        seed: 7,
        networks: 40,
        ends: 10,
        shape: Shape {
            converted: 16,
            ..USED
        },
    },
    Group {
        name: "narrow",
        seed: 8,
        networks: 240,
        ends: 10,
        shape: NARROW,
    },
    Group {
        name: "narrow, any tariffs",
        seed: 9,
        networks: 240,
        ends: 10,
        shape: Shape {
            tariffs: Tariffs::Any,
            ..NARROW
        },
    },
    Group {
        name: "wide",
        seed: 10,
        networks: 12,
        ends: 6,
        shape: Shape {
            nodes: (20, 40),
            channels: (4, 8),
            spans: (60, 160),
            ..USED
        },
    },
    Group {
        name: "full",
        seed: 11,
        networks: 3,
        ends: 5,
        shape: FULL,
    },
];
