ghost use Rattle.std.specs.Prelude.{◌≡◌, ℕ, ◌<◌, Bool};
ghost use Rattle.heap.specs.Orders.{IsOrder};

// An order on the numbers below `size`, which a keeper answers: it goes by their keys, and what those
// are, the keeper has. The elements of a heap are numbers alone.
pub trait Order {
    type Key: Copy;

    ghost size: { Self → ℕ };

    ghost key: { Self → ℕ → Self.Key };

    ghost most: { Self.Key → Self.Key → Bool };

    // The key of a number.
    fn key(&self, x: u16) -> Self::Key
        requires { x < size self.now }
        ensures { result ≡ key self.now x };

    // Whether the first key is at most the second.
    fn at_most(&self, a: Self::Key, b: Self::Key) -> bool
        ensures { result ≡ most a b };

    ghost laws: { IsOrder most };
}
