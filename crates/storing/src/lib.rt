// Registers stored. What that means stands in `card/specs/Access.antt`.
#![tactic(auto)]

ghost use Rattle.std.specs.Prelude.{◌≡◌};
ghost use Rattle.card.specs.Access.{stores};

use card::{CLEAR, Card, Register, SET};

// v stored in a register of the card. The 64-byte copy and continue have nothing to store here.
#[tactic(auto, unfolding(card::specs::Access::stores))]
pub fn store(card: &mut Card, register: Register, v: u32)
    ensures { card.new ≡ stores card.old register v }
{
    match register {
        Register::Foreground => card.registers.foreground = v,
        Register::Background => card.registers.background = v,
        Register::PlaneMask => card.registers.plane = v,
        Register::PixelMaskOnce => {
            card.mask.bits = v;
            card.mask.marked = SET;
        }
        Register::Mode => card.registers.mode = v,
        Register::RasterOperation => card.registers.raster = v,
        Register::PixelShift => card.copier.writing = CLEAR,
        Register::Bresenham1 => card.registers.bresenham1 = v,
        Register::Bresenham2 => card.registers.bresenham2 = v,
        Register::Bresenham3 => card.registers.bresenham3 = v,
        Register::PixelMask => {
            card.mask.bits = v;
            card.mask.marked = CLEAR;
        }
        Register::FillMask => card.registers.fill = v,
        Register::BlockColour(k) => card.registers.block[(k % 8) as usize] = v,
        Register::Continue | Register::CopySource | Register::CopyDestination | Register::Missing =>
            {}
    }
}
