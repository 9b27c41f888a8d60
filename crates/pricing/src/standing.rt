ghost use Rattle.std.specs.Prelude.{◌≡◌, Some};
ghost use Rattle.network.specs.Net.{net};
ghost use Rattle.records.specs.Chains.{along};
ghost use Rattle.semilightpath.specs.Scenes.{alone};
ghost use Rattle.semilightpath.specs.Costs.{cost};

use cost::kind::Kind;
use network::Network;
use records::chain::next_step;
use records::channel::Channel;
use records::circuit::Route;
use semilightpath::step::priced;

// What a route's path costs, as the records of the channels chain it, by the network's tariffs.
pub fn price_standing<K: Kind>(
    kind: &K,
    network: &Network,
    channels: &[Channel],
    route: Route,
) -> K::Value
    ensures { result ≡ cost K.ops (alone (net network.now)) (along (net network.now).counts channels.now (Some route)) }
{
    let extent = network.extent();
    let mut value = kind.start();
    let mut entered = None;
    let mut at = Some(route.first);
    for _ in 0..route.steps {
        let Some(step) = at else {
            return value;
        };
        value = priced(kind, network, value, entered, step);
        entered = Some(step.channel);
        at = next_step(extent, channels, step);
    }
    value
}
