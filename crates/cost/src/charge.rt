ghost use Rattle.std.specs.Prelude.{◌≡◌, true};
ghost use Rattle.cost.specs.Charges.{after, after_all, AllTariffs, KeepsOrder};

use super::kind::Kind;

// What is charged for one part of a path: a span's tariff, or a converter's.
#[derive(Clone, Copy)]
pub enum Charge {
    Span { tariff: u16 },
    Conversion { tariff: u16 },
}

// The value after one charge.
pub fn after<K: Kind>(kind: &K, value: K::Value, charge: Charge) -> K::Value
    ensures { result ≡ after K.Kind.ops value charge }
{
    match charge {
        Charge::Span { tariff } => kind.after_span(value, tariff),
        Charge::Conversion { tariff } => kind.after_conversion(value, tariff),
    }
}

// The charges added, from left to right. `after_all` promises more of the same answer.
fn added<K: Kind>(kind: &K, value: K::Value, charges: &[Charge]) -> K::Value
    ensures { result ≡ after_all K.Kind.ops value charges.now }
{
    charges
        .iter()
        .fold(value, |so_far, charge| after(kind, so_far, *charge))
}

// The value after all of these charges, from left to right. Where each is a tariff, the order is kept
// and no value becomes less, as after one of them.
pub fn after_all<K: Kind>(kind: &K, value: K::Value, charges: &[Charge]) -> K::Value
    ensures is { result ≡ after_all K.Kind.ops value charges.now }
    ensures order { AllTariffs charges.now → KeepsOrder K.Kind.ops charges.now value result }
    ensures upward { AllTariffs charges.now → K.Kind.ops.at_most value result ≡ true }
{
    added(kind, value, charges)
}
