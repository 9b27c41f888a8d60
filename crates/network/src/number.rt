ghost use Rattle.std.specs.Prelude.{◌≡◌};
ghost use Rattle.network.specs.Limits.{in_range};

// Whether a channel may have this number.
pub fn in_range(n: i16) -> bool
    ensures { result ≡ in_range n }
{
    (-1000..=1000).contains(&n)
}
