ghost use Rattle.std.specs.Prelude.{◌≡◌, ◌≤◌, ◌<◌, true, length, Some};
ghost use Rattle.network.specs.Steps.{distinct};
ghost use Rattle.records.specs.Chains.{along, circuit_count, route_of, steps_of};
ghost use Rattle.records.specs.Changes.{given_back};
ghost use Rattle.records.specs.Sound.{AllWithin};
ghost use Rattle.search.specs.Labels.{path_to};
ghost use Rattle.book.specs.Changes.{takes, lights, frees, changed, path_in};
ghost use Rattle.book.specs.State.{contents, SameTables};

use super::lent::Lent;
use laying::lay;
use network::extent::Extent;
use records::chain::{next_step, write};
use records::channel::Channel;
use records::circuit::{Circuit, Route};
use search::label::Label;
use semilightpath::point::Point;

// What changes in a book's tables.
impl Lent<'_, '_, '_> {
    // A circuit takes the path that the labels lead along to a point, and is offered; told is how many
    // steps the path has.
    pub(crate) fn take<V: Copy>(
        &mut self,
        extent: Extent,
        circuit: u8,
        from: u8,
        to: u8,
        labels: &[Label<V>],
        end: Point,
    ) -> u16
        requires rows { circuit < length self.old.circuits.now }
        requires some { 1 ≤ length (path_to extent.counts labels.now end) }
        ensures contents { contents self.new ≡ changed extent.counts (takes circuit from to (path_to extent.counts labels.now end)) (contents self.old) }
        ensures names { SameTables self.old self.new }
        ensures steps { result ≡ length (path_to extent.counts labels.now end) }
    {
        let laid = lay(extent, labels, end, circuit, self.channels);
        let Some(first) = laid.first else {
            unreachable!()
        };
        self.circuits[usize::from(circuit)] = Circuit::Offered(Route {
            from,
            to,
            first,
            steps: laid.steps,
        });
        laid.steps
    }

    // A circuit that is offered is lit.
    pub(crate) fn light(&mut self, extent: Extent, circuit: u8)
        requires rows { circuit < length self.old.circuits.now }
        ensures contents { contents self.new ≡ changed extent.counts (lights circuit) (contents self.old) }
        ensures names { SameTables self.old self.new }
    {
        let circuit = usize::from(circuit);
        if let Circuit::Offered(route) = self.circuits[circuit] {
            self.circuits[circuit] = Circuit::Lit(route);
        }
    }

    // A circuit gives its path back, and is free; told is how many channels went back.
    pub(crate) fn free(&mut self, extent: Extent, circuit: u8) -> u16
        requires known { circuit < circuit_count }
        requires rows { circuit < length self.old.circuits.now }
        requires within { AllWithin extent.counts (path_in extent.counts (contents self.old) circuit) }
        requires apart { distinct (path_in extent.counts (contents self.old) circuit) ≡ true }
        ensures contents { contents self.new ≡ changed extent.counts (frees circuit) (contents self.old) }
        ensures names { SameTables self.old self.new }
        ensures steps { result ≡ steps_of (route_of self.old.circuits.now circuit) }
    {
        let circuit = usize::from(circuit);
        let Some(route) = self.circuits[circuit].standing() else {
            return 0;
        };
        give_back(extent, self.channels, route);
        self.circuits[circuit] = Circuit::Free;
        route.steps
    }
}

// Frees the channels of a route's path.
fn give_back(extent: Extent, channels: &mut [Channel], route: Route)
    requires within { AllWithin extent.counts (along extent.counts channels.old (Some route)) }
    requires apart { distinct (along extent.counts channels.old (Some route)) ≡ true }
    ensures { channels.new ≡ given_back extent.counts (along extent.counts channels.old (Some route)) channels.old }
{
    let mut at = Some(route.first);
    for _ in 0..route.steps {
        let Some(step) = at else {
            return;
        };
        at = next_step(extent, channels, step);
        write(extent, channels, step, None);
    }
}
