// The register table: the rows of `card/specs/Registers.antt`.
#![tactic(auto)]

ghost use Rattle.std.specs.Prelude.{◌≡◌};
ghost use Rattle.card.specs.Registers.{row, row_at};

use card::{ERROR_UNIT, ONES, Register, Row};

// By a call a row is a line.
fn listed(offset: u32, register: Register, kept: u32, reset: u32, readable: bool) -> Row
    ensures { result ≡ row offset register kept reset readable }
{
    Row {
        offset,
        register,
        kept,
        reset,
        readable,
    }
}

// The row of an offset. No Option: where no register has it, `card::specs::Registers.row_at` has a row too, that of `Missing`.
// A `match` is not laid on the stack at each call, as an array of rows is.
#[tactic(auto, unfolding(card::specs::Registers::row_at, card::specs::Registers::row_in, card::specs::Registers::table))]
pub fn find(offset: u32) -> Row
    ensures { result ≡ row_at offset }
{
    match offset {
        0x0020 => listed(offset, Register::Foreground, ONES, 0, true),
        0x0024 => listed(offset, Register::Background, ONES, 0, true),
        0x0028 => listed(offset, Register::PlaneMask, ONES, ONES, true),
        0x002C => listed(offset, Register::PixelMaskOnce, ONES, ONES, true),
        0x0030 => listed(offset, Register::Mode, ONES, 0, true),
        0x0034 => listed(offset, Register::RasterOperation, 0xF, 3, true),
        0x0038 => listed(offset, Register::PixelShift, 0xF, 0, true),
        0x0040 => listed(offset, Register::Bresenham1, ONES, 0, true),
        0x0044 => listed(offset, Register::Bresenham2, ONES, 0, true),
        0x0048 => listed(
            offset,
            Register::Bresenham3,
            ONES - ERROR_UNIT + 16, // bits 31:15 and 3:0
            0,
            true,
        ),
        0x004C => listed(offset, Register::Continue, ONES, 0, false),
        0x005C => listed(offset, Register::PixelMask, ONES, ONES, true),
        0x0080 => listed(offset, Register::FillMask, ONES, 0, true),
        0x0140 => listed(offset, Register::BlockColour(0), ONES, 0, true),
        0x0144 => listed(offset, Register::BlockColour(1), ONES, 0, true),
        0x0148 => listed(offset, Register::BlockColour(2), ONES, 0, true),
        0x014C => listed(offset, Register::BlockColour(3), ONES, 0, true),
        0x0150 => listed(offset, Register::BlockColour(4), ONES, 0, true),
        0x0154 => listed(offset, Register::BlockColour(5), ONES, 0, true),
        0x0158 => listed(offset, Register::BlockColour(6), ONES, 0, true),
        0x015C => listed(offset, Register::BlockColour(7), ONES, 0, true),
        0x0160 => listed(offset, Register::CopySource, ONES, 0, false),
        0x0164 => listed(offset, Register::CopyDestination, ONES, 0, false),
        _ => listed(offset, Register::Missing, 0, 0, false),
    }
}
