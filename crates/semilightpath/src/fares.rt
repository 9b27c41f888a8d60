ghost use Rattle.std.specs.Prelude.{◌≡◌, ℕ, Some, Option};
ghost use Rattle.std.specs.Option.{IfSome};
ghost use Rattle.network.specs.Net.{Net, net, tariff_of};
ghost use Rattle.network.specs.declared.step.Step.{Step};
ghost use Rattle.semilightpath.specs.Carried.{carried_alone};

use network::Network;
use network::step::Step;

// A network, and what can be used of it at a moment. The fare of a step is the tariff of its channel
// where that can be used, and none where it cannot.
pub trait Fares {
    ghost over: { Self → Net };

    fn network(&self) -> &Network<'_, '_>
        ensures { net result.now ≡ over self.now };

    ghost fare: { Self → Step → Option ℕ };

    fn fare(&self, step: Step) -> Option<u16>
        ensures { result ≡ fare self.now step };

    ghost carried: { (f : Self) (e : Step) → IfSome (fare f e) (λ w. tariff_of (over f) e.span e.channel ≡ Some w) };
}

// A network alone: all spans are open, and all channels free.
impl Fares for Network<'_, '_> {
    ghost over = { net };

    ghost fare = { λ w e. tariff_of (net w) e.span e.channel };

    ghost carried = { λ w e. carried_alone (tariff_of (net w) e.span e.channel) };

    fn network(&self) -> &Network<'_, '_> {
        self
    }

    fn fare(&self, step: Step) -> Option<u16> {
        self.tariff(usize::from(step.span), usize::from(step.channel))
    }
}
