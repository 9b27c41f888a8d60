ghost use Rattle.std.specs.Prelude.{◌≡◌, [], ◌∷◌};
ghost use Rattle.network.specs.Net.{net};
ghost use Rattle.fault.specs.Judging.{first, unless};
ghost use Rattle.book.specs.Calls.{Shuts};
ghost use Rattle.book.specs.Changes.{circuit_in};
ghost use Rattle.book.specs.Refusing.{of_network, of_circuit};
ghost use Rattle.book.specs.State.{tables, Kept};

use super::Book;
use fault::book::BookFault;
use network::Network;
use network::counts::Counts;
use records::circuit::{Circuit, is_circuit};
use records::state::SpanState;

impl Book<'_, '_, '_> {
    // The counts of the network that the book was opened for.
    pub fn counts(&self) -> Counts
        ensures { result ≡ self.now.extent.counts }
    {
        self.extent.counts()
    }

    // The mark that its opener chose.
    pub fn mark(&self) -> u32
        ensures { result ≡ self.now.mark }
    {
        self.mark
    }

    // Refuses a network whose counts are not those that the book was opened for.
    pub(crate) fn judge_network(&self, network: &Network) -> Result<(), BookFault>
        ensures { result ≡ unless (first (of_network self.now.extent.counts (net network.now).counts ∷ [])) tt }
    {
        if network.counts() != self.extent.counts() {
            return Err(BookFault::OtherCounts);
        }
        Ok(())
    }

    // The record of a circuit, where there is such a circuit.
    pub(crate) fn record(&self, circuit: u16) -> Result<Circuit, BookFault>
        ensures { result ≡ unless (first (of_circuit circuit ∷ [])) (circuit_in (tables self.now) circuit) }
    {
        if !is_circuit(circuit) {
            return Err(BookFault::NoCircuit);
        }
        Ok(self.lent.circuits[usize::from(circuit)])
    }

    // Shuts a span; one that is shut stays so.
    pub fn shut(&mut self, span: u16) -> Result<(), BookFault>
        ensures kept { Kept self.old self.new }
        ensures call { Shuts self.old.extent.counts (tables self.old) span result (tables self.new) }
    {
        let span = usize::from(span);
        if span >= self.extent.counts().spans {
            return Err(BookFault::NoSpan);
        }
        self.lent.spans[span] = SpanState::Shut;
        Ok(())
    }
}
