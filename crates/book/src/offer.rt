ghost use Rattle.std.specs.Prelude.{◌≡◌, ◌<◌};
ghost use Rattle.records.specs.Chains.{circuit_count};

// An offer in hand: it holds a circuit's channels until it is confirmed or withdrawn, and one of the two
// has to be done. So it can be neither copied nor let go, and only a book makes one.
pub struct Offer {
    pub(crate) mark: u32,
    pub(crate) circuit: u8,
    ghost known: { circuit < circuit_count },
}

impl Offer {
    // Ends an offer, where its circuit is lit or freed; told is which that is.
    pub(crate) fn spend(self) -> u8
        ensures { result ≡ self.circuit }
    {
        let Offer { mark: _, circuit } = self;
        circuit
    }
}

// What a book offers: what the path costs, how many steps it has, and the offer in hand.
pub struct Offered<V> {
    pub cost: V,
    pub steps: u16,
    pub offer: Offer,
}
