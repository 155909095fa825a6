// Registers read, by the table. What that means stands in `card/specs/Access.antt`.
#![tactic(auto)]

ghost use Rattle.std.specs.Prelude.{◌≡◌};
ghost use Rattle.card.specs.Access.{holds, reading};
ghost use Rattle.rules.specs.Numbers.{read_of};

use card::{Card, Register};
use rules::Refusal;

// What a register holds; 0 where there is nothing to read, as the definition `holds` has it: whether it may be read, its row says.
fn value(card: &Card, register: Register) -> u32
    ensures { result ≡ holds card.now register }
{
    // a copy, of which one is chosen by a number: so no more of a card that C hands in by value is copied
    let registers = card.registers;
    match register {
        Register::Foreground => registers.foreground,
        Register::Background => registers.background,
        Register::PlaneMask => registers.plane,
        Register::PixelMaskOnce | Register::PixelMask => card.mask.bits,
        Register::Mode => registers.mode,
        Register::RasterOperation => registers.raster,
        Register::Bresenham1 => registers.bresenham1,
        Register::Bresenham2 => registers.bresenham2,
        Register::Bresenham3 => registers.bresenham3,
        Register::FillMask => registers.fill,
        Register::BlockColour(k) => registers.block[(k % 8) as usize],
        Register::PixelShift
        | Register::Continue
        | Register::CopySource
        | Register::CopyDestination
        | Register::Missing => 0,
    }
}

// A register read: the bits of the value that its row keeps.
#[tactic(auto, unfolding(card::specs::Access::reading))]
pub fn read(card: &Card, offset: u32) -> Result<u32, Refusal>
    ensures { read_of result ≡ reading card.now offset }
{
    let row = lookup::find(offset);
    if !row.readable {
        return Err(Refusal::Register);
    }
    Ok(value(card, row.register) & row.kept)
}
