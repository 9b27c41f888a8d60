ghost use Rattle.std.specs.Prelude.{◌≡◌, ◌≤◌, length, None, Some, MatchResult};
ghost use Rattle.fault.specs.Judging.{first};
ghost use Rattle.plan.specs.Kept.{Accepted};
ghost use Rattle.plan.specs.Plan.{file_faults};

use fault::plan::{FileFault, LoadFault};
use plan::reader::{Plan, check};

// The first fault of a plan, or the plan, which tables for the largest network have room for.
#[tactic(auto, using(crate::proofs::Roomy::accepted))]
pub(crate) fn judge<'p>(
    bytes: &'p [u8],
    tariffs: &[u16],
    converters: &[u16],
) -> Result<Plan<'p>, FileFault>
    requires spans { 4096 ≤ length tariffs.now }
    requires nodes { 16384 ≤ length converters.now }
    ensures { MatchResult result (λ p. (first (file_faults bytes.now) ≡ None) × Accepted p bytes.now (length tariffs.now) (length converters.now)) (λ f. first (file_faults bytes.now) ≡ Some f) }
{
    match check(bytes, tariffs, converters) {
        Ok(plan) => Ok(plan),
        Err(LoadFault::File(fault)) => Err(fault),
        Err(LoadFault::Book(_)) => unreachable!(),
    }
}
