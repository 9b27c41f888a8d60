ghost use Rattle.std.specs.Prelude.{◌≡◌, ◌<◌, true, [], ◌∷◌, length};
ghost use Rattle.fault.specs.Judging.{unless};
ghost use Rattle.records.specs.Chains.{circuit_count};
ghost use Rattle.book.specs.Calls.{Confirms, Withdraws, Darkens};
ghost use Rattle.book.specs.Changes.{lights, frees, circuit_in, path_in, Makes};
ghost use Rattle.book.specs.Refusing.{is_offered, spend_refusal};
ghost use Rattle.book.specs.State.{tables, Kept};

use super::Book;
use super::offer::Offer;
use fault::book::BookFault;
use records::circuit::Circuit;

impl Book<'_, '_, '_> {
    // Refuses an offer that is another book's, or whose circuit is not offered.
    fn judge_offer(&self, offer: &Offer) -> Result<(), BookFault>
        ensures { result ≡ unless (spend_refusal self.now.mark (tables self.now) offer.now) tt }
    {
        if offer.mark != self.mark {
            return Err(BookFault::OtherBook);
        }
        match self.lent.circuits[usize::from(offer.circuit)] {
            Circuit::Offered(_) => Ok(()),
            Circuit::Free | Circuit::Lit(_) => Err(BookFault::CircuitState),
        }
    }

    // Lights a circuit that is offered.
    fn light(&mut self, circuit: u8)
        requires known { circuit < circuit_count }
        requires offered { is_offered (circuit_in (tables self.old) circuit) ≡ true }
        ensures kept { Kept self.old self.new }
        ensures change { Makes self.old.extent.counts (lights circuit ∷ []) (tables self.old) (tables self.new) }
    {
        self.lent.light(self.extent, circuit);
    }

    // Frees a circuit; told is how many channels go back.
    fn free(&mut self, circuit: u8) -> u16
        requires { circuit < circuit_count }
        ensures kept { Kept self.old self.new }
        ensures change { Makes self.old.extent.counts (frees circuit ∷ []) (tables self.old) (tables self.new) }
        ensures steps { result ≡ length (path_in self.old.extent.counts (tables self.old) circuit) }
    {
        self.lent.free(self.extent, circuit)
    }

    // Confirms an offer in hand: its circuit is lit, and told is which it is. A refused offer is handed
    // back.
    pub fn confirm(&mut self, offer: Offer) -> Result<u8, (BookFault, Offer)>
        ensures kept { Kept self.old self.new }
        ensures call { Confirms self.old.extent.counts self.old.mark (tables self.old) offer result (tables self.new) }
    {
        if let Err(fault) = self.judge_offer(&offer) {
            return Err((fault, offer));
        }
        let circuit = offer.spend();
        self.light(circuit);
        Ok(circuit)
    }

    // Withdraws an offer in hand: its circuit is free, and told is how many channels went back. A refused
    // offer is handed back.
    pub fn withdraw(&mut self, offer: Offer) -> Result<u16, (BookFault, Offer)>
        ensures kept { Kept self.old self.new }
        ensures call { Withdraws self.old.extent.counts self.old.mark (tables self.old) offer result (tables self.new) }
    {
        if let Err(fault) = self.judge_offer(&offer) {
            return Err((fault, offer));
        }
        Ok(self.free(offer.spend()))
    }

    // Darkens a lit circuit: it is free, and told is how many channels went back.
    pub fn darken(&mut self, circuit: u16) -> Result<u16, BookFault>
        ensures kept { Kept self.old self.new }
        ensures call { Darkens self.old.extent.counts (tables self.old) circuit result (tables self.new) }
    {
        let Circuit::Lit(_) = self.record(circuit)? else {
            return Err(BookFault::CircuitState);
        };
        Ok(self.free(circuit as u8))
    }
}
