ghost use Rattle.std.specs.Prelude.{◌≤◌, length};
ghost use Rattle.search.specs.Frontiers.{entry_cost};
ghost use Rattle.search.specs.Orders.{IsOrder-at_most};

use super::label::Label;
use cost::kind::Kind;
use heap::order::Order;

// The order of the arrivals by their costs: of the entries of a table, the first so many.
#[derive(Drop)]
pub(crate) struct Costs<'c, K: Kind> {
    pub(crate) kind: &'c K,
    pub(crate) labels: &'c [Label<K::Value>],
    pub(crate) entries: usize,
    ghost wide: { entries ≤ length labels.now },
}

impl<K: Kind> Order for Costs<'_, K> {
    type Key = K::Value;

    ghost size = { λ s. s.entries };

    ghost key = { λ s. entry_cost K.ops s.labels.now };

    ghost most = { K.ops.at_most };

    fn key(&self, x: u16) -> K::Value {
        match self.labels[usize::from(x)] {
            Some(known) => known.cost,
            None => self.kind.start(),
        }
    }

    fn at_most(&self, a: K::Value, b: K::Value) -> bool {
        self.kind.at_most(a, b)
    }

    ghost laws = { IsOrder-at_most K.laws };
}
