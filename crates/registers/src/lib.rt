// The plan of a register write.
#![tactic(auto)]

ghost use Rattle.std.specs.Prelude.{◌≡◌};
ghost use Rattle.rules.specs.Modes.{register_of};
ghost use Rattle.plan.specs.Plan.{register_plan, storing_plan, copying_plan};

use card::{ALL_LANES, CLEAR, Card, ONES, Register, Write};
use plan::{Effect, Faults, LAST_OPERATION, Paint, Plan};

// Of any register write: those that have rules of their own, and all others, which keep any value. The faults are changed in place: a struct of its own
// in each of six arms, by `..faults`, is one more that every write sets to 0 first (20 instructions a write, measured).
pub fn plan(card: &Card, w: Write) -> Plan
    ensures { result ≡ register_plan (register_of w) card.now w }
{
    let row = lookup::find(w.address);
    let register = row.register;
    let data = w.data;
    let value = data & row.kept;
    let op = (card.registers.raster % 16) as u8;
    let mut faults = Faults {
        lanes: w.lanes != ALL_LANES,
        register: false,
        mode: modes::is_unlisted(card.registers.mode),
        raster: LAST_OPERATION < card.registers.raster,
        address: false,
        source: false,
    };
    match register {
        Register::Mode => {
            faults.mode |= modes::is_unlisted(data);
            storing(faults, op, register, value)
        }
        Register::RasterOperation => {
            faults.raster |= data / 256 % 16 != 0;
            storing(faults, op, register, value)
        }
        Register::PixelShift => {
            faults.raster |= data % 16 != 0;
            storing(faults, op, register, value)
        }
        Register::Continue => {
            let m = modes::mode_of(card.registers.mode);
            faults.mode |= !modes::is_line(m);
            // its walk is gone apart (crate `walks`)
            storing(faults, op, register, value)
        }
        Register::CopySource => {
            faults.address = data % 64 != 0;
            copying(faults, op, data, 0, Effect::Loads)
        }
        Register::CopyDestination => {
            faults.address = data % 64 != 0;
            faults.source = card.copier.loaded == CLEAR;
            copying(faults, op, data, ONES, Effect::Unloads)
        }
        Register::Missing => {
            faults.register = true;
            storing(faults, op, register, value)
        }
        Register::Foreground
        | Register::Background
        | Register::PlaneMask
        | Register::PixelMaskOnce
        | Register::Bresenham1
        | Register::Bresenham2
        | Register::Bresenham3
        | Register::PixelMask
        | Register::FillMask
        | Register::BlockColour(_) => storing(faults, op, register, value),
    }
}

// A register write that draws nothing. It and `copying` write out a plan each, and none takes values from another by `..base` (see `plan`).
fn storing(faults: Faults, op: u8, register: Register, value: u32) -> Plan
    ensures { result ≡ storing_plan faults op register value }
{
    Plan {
        faults,
        first: 0,
        width: 0,
        op,
        enable: 0,
        paint: Paint::Half,
        effect: Effect::Stores { register, value },
    }
}

// One half of the 64-byte copy, at an address.
fn copying(faults: Faults, op: u8, address: u32, enable: u32, effect: Effect) -> Plan
    ensures { result ≡ copying_plan faults op address enable effect }
{
    Plan {
        faults,
        first: address as usize,
        width: 64,
        op,
        enable,
        paint: Paint::Whole,
        effect,
    }
}
