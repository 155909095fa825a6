// Whether a write is refused, from its plan: the first test that holds.
#![tactic(auto)]

ghost use Rattle.std.specs.Prelude.{◌≡◌};
ghost use Rattle.rules.specs.Numbers.{told};
ghost use Rattle.plan.specs.Plan.{judged};

use bounds::{bad_length, bad_space, past_end};
use card::Write;
use plan::Plan;
use rules::Refusal;

// It sees the length of VRAM, and no byte of it.
#[tactic(auto, unfolding(plan::specs::Plan::judged_by))]
pub fn refuse(p: &Plan, w: Write, n: usize) -> Result<(), Refusal>
    ensures { told result ≡ judged p.now w n }
{
    let faults = &p.faults;
    if bad_length(n) {
        return Err(Refusal::Length);
    }
    if bad_space(w) {
        return Err(Refusal::Space);
    }
    if faults.lanes {
        return Err(Refusal::Lanes);
    }
    if faults.register {
        return Err(Refusal::Register);
    }
    if faults.mode {
        return Err(Refusal::Mode);
    }
    if faults.raster {
        return Err(Refusal::Operation);
    }
    if faults.address {
        return Err(Refusal::Boundary);
    }
    if past_end(p.first, p.width, n) {
        return Err(Refusal::Outside);
    }
    if faults.source {
        return Err(Refusal::Unloaded);
    }
    Ok(())
}
