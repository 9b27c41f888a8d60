ghost use Rattle.std.specs.Prelude.{◌≡◌, Some, None, OnOk, MatchResult};
ghost use Rattle.network.specs.Net.{net};
ghost use Rattle.records.specs.Chains.{route_of};
ghost use Rattle.slip.specs.Slips.{SettingsLead, Tells};
ghost use Rattle.book.specs.Calls.{Slips};
ghost use Rattle.book.specs.Changes.{path_in};
ghost use Rattle.book.specs.Refusing.{slip_refusal};
ghost use Rattle.book.specs.State.{tables};

use super::Book;
use fault::book::BookFault;
use network::Network;
use records::circuit::Route;
use slip::setting::Setting;
use slip::writing::write_slip;

impl Book<'_, '_, '_> {
    // The route of a circuit that a slip is to tell, or why it can't be told.
    fn route_for_slip(
        &self,
        network: &Network,
        circuit: u16,
        room: usize,
    ) -> Result<Route, BookFault>
        ensures { MatchResult result (λ r. (slip_refusal self.now.extent.counts (net network.now).counts (tables self.now) circuit room ≡ None) × (route_of (tables self.now).circuits circuit ≡ Some r)) (λ f. slip_refusal self.now.extent.counts (net network.now).counts (tables self.now) circuit room ≡ Some f) }
    {
        self.judge_network(network)?;
        let Some(route) = self.record(circuit)?.standing() else {
            return Err(BookFault::CircuitState);
        };
        if room <= usize::from(route.steps) {
            return Err(BookFault::SlipBuffer);
        }
        Ok(route)
    }

    // Writes the slip of a standing circuit: a setting for each node that its path passes, in the path's
    // order, and blanks behind; told is how many settings there are.
    pub fn slip(
        &self,
        network: &Network,
        circuit: u16,
        buffer: &mut [Setting],
    ) -> Result<usize, BookFault>
        ensures call { Slips (net network.now) self.now.extent.counts (tables self.now) circuit buffer.old result buffer.new }
        ensures tells { OnOk result (Tells (net network.now) (path_in self.now.extent.counts (tables self.now) circuit) buffer.new) }
        ensures lead { SettingsLead (net network.now) (path_in self.now.extent.counts (tables self.now) circuit) }
    {
        let route = self.route_for_slip(network, circuit, buffer.len())?;
        write_slip(network, self.lent.channels, route, buffer);
        Ok(usize::from(route.steps) + 1)
    }
}
