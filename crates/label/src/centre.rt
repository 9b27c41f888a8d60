ghost use Rattle.std.specs.Prelude.{◌≡◌, ◌≤◌, true, pos, unsigned_abs};
ghost use Rattle.network.specs.Limits.{in_range};
ghost use Rattle.label.specs.Labels.{spacing_of, centre_of};

use network::spacing::Spacing;

// The centre of number 0, from which the grid is counted: 193.1 THz.
const ANCHOR: i32 = 193_100_000;

// A spacing in MHz.
fn spacing_of(spacing: Spacing) -> i32
    ensures { result ≡ pos (spacing_of spacing) }
{
    match spacing {
        Spacing::Ghz100 => 100_000,
        Spacing::Ghz50 => 50_000,
        Spacing::Ghz25 => 25_000,
        Spacing::Ghz12_5 => 12_500,
    }
}

// The centre of a number n, in MHz.
pub fn centre_of(spacing: Spacing, n: i16) -> u32
    requires { in_range n ≡ true }
    ensures { result ≡ unsigned_abs (centre_of spacing n) }
{
    (ANCHOR + i32::from(n) * spacing_of(spacing)).unsigned_abs()
}
