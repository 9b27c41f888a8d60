ghost use Rattle.std.specs.Prelude.{◌≡◌, ◌≢◌, ℕ, ◌<◌, false, None};
ghost use Rattle.network.specs.Steps.{step};
ghost use Rattle.network.specs.declared.step.Step.{Step};
ghost use Rattle.semilightpath.specs.Scenes.{scene};
ghost use Rattle.semilightpath.specs.Paths.{head_of, IsUsable};

use network::step::Step;
use semilightpath::fares::Fares;

// Whether some channel of a span can be used; where not, none can.
fn is_open<F: Fares>(fares: &F, span: u16) -> bool
    ensures { result ≡ false → (c : ℕ) → c < (F.over fares.now).counts.channels → F.fare fares.now (step span c) ≡ None }
{
    for channel in 0..fares.network().counts().channels as u8 {
        if fares.fare(Step { span, channel }).is_some() {
            return true;
        }
    }
    false
}

// Whether some step that enters a node can be taken; where not, no path leads there.
pub(crate) fn is_entered<F: Fares>(fares: &F, node: u8) -> bool
    ensures { result ≡ false → (e : Step) → IsUsable (scene (F.over fares.now) (F.fare fares.now)) e → head_of (F.over fares.now) e ≢ node }
{
    for span in fares.network().entering(usize::from(node)) {
        if is_open(fares, *span) {
            return true;
        }
    }
    false
}
