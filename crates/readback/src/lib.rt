// Read-back of pixels out of VRAM.
// What each function means stands in specs/ReadBack.antt.
#![tactic(auto)]

ghost use Rattle.std.specs.Prelude.{◌≡◌};
ghost use Rattle.rules.specs.Numbers.{told};
ghost use Rattle.readback.specs.ReadBack.{back_number, back_part};

use bounds::bad_length;
use rules::Refusal;

// A read-back of n pixels from address a, out of a VRAM of that length.
#[tactic(auto, unfolding(crate::specs::ReadBack::back_number))]
pub fn number(size: usize, a: u32, n: u32) -> Result<(), Refusal>
    ensures { told result ≡ back_number size a n }
{
    if bad_length(size) {
        return Err(Refusal::Length);
    }
    if size < a as usize + n as usize {
        return Err(Refusal::Outside);
    }
    Ok(())
}

// Read-back: that part of VRAM itself, or an empty part where it is refused.
#[tactic(auto, using(crate::proofs::Backwards::back_refused, crate::proofs::Backwards::back_given, crate::proofs::Backwards::back_inside))]
pub fn part(vram: &[u8], a: u32, n: u32) -> &[u8]
    ensures { result.now ≡ back_part vram.now a n }
{
    match number(vram.len(), a, n) {
        Ok(()) => &vram[a as usize..a as usize + n as usize],
        Err(_) => &vram[0..0],
    }
}
