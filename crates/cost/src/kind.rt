ghost use Rattle.std.specs.Prelude.{◌≡◌, ℕ, Bool, true, List, Some};
ghost use Rattle.cost.specs.Laws.{Ops, Laws, Grows};

use std::fmt::Display;

// A kind of cost. Its values are built from the start by span steps and conversion steps, each at
// a tariff, compared by "at most", and displayed as `text` says. Whoever makes a kind shows the four
// laws, and code that is written for every kind may use them.
pub trait Kind {
    type Value: Copy + Display;

    ghost ops: { Ops Self.Value };

    ghost text: { Self.Value → List ℕ };

    // The value before any step.
    fn start(&self) -> Self::Value
        ensures { result ≡ ops.start };

    // The value after a span more.
    fn after_span(&self, value: Self::Value, tariff: u16) -> Self::Value
        ensures { result ≡ ops.span value tariff };

    // The value after a conversion more.
    fn after_conversion(&self, value: Self::Value, tariff: u16) -> Self::Value
        ensures { result ≡ ops.conversion value tariff };

    // Whether the first value is at most the second. It has no default by `Ord`, which not every
    // kind may have.
    fn at_most(&self, a: Self::Value, b: Self::Value) -> bool
        ensures { result ≡ ops.at_most a b };

    ghost grows: { Bool };

    // Whether a larger tariff never costs less. A kind need not be so; by one that is, a search need
    // not look at what is dearer than a step that costs too much.
    fn grows(&self) -> bool
        ensures { result ≡ grows };

    ghost laws: { Laws ops };

    ghost growth: { grows ≡ true → Grows ops };

    ghost printed: { (v : Self.Value) → Self.Value.Display.output v ≡ Some (text v) };
}
