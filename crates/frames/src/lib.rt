// The plan of a frame write: one arm for each mode. A line's draws nothing: its walk is gone apart (crate `walks`).
#![tactic(auto)]

ghost use Rattle.std.specs.Prelude.{◌≡◌};
ghost use Rattle.rules.specs.Modes.{mode_of, fill_low, fill_first, fill_width};
ghost use Rattle.plan.specs.Plan.{frame_plan, drawing_plan, copy_plan, halved_plan, rotated as rotated_by};
ghost use Rattle.plan.specs.declared.Paint.TheVariants.{Stippled, Tiled};

use card::{ALL_LANES, CLEAR, Card, ONES, Write};
use plan::{COPY, Effect, Faults, LAST_OPERATION, Paint, Plan};
use rules::Mode;

// Of any frame write.
#[tactic(auto, unfolding(rules::specs::Modes::frame_span))]
pub fn plan(card: &Card, w: Write) -> Plan
    ensures { result ≡ frame_plan (mode_of card.now.registers.mode) card.now w }
{
    let registers = &card.registers;
    let m = modes::mode_of(registers.mode);
    let foreground = registers.foreground;
    let background = registers.background;
    let op = (registers.raster % 16) as u8;
    let pixels = card.mask.bits;
    let data = w.data;
    let address = w.address as usize;
    let faults = Faults {
        lanes: w.lanes != ALL_LANES,
        register: false,
        mode: false,
        raster: LAST_OPERATION < registers.raster,
        address: w.address % 4 != 0,
        source: false,
    };
    match m {
        Mode::Simple => {
            let faults = Faults {
                lanes: false,
                ..faults
            };
            let enable = w.lanes as u32 & pixels;
            let paint = tile(data, data, 0);
            drawing(faults, address, 4, op, enable, paint)
        }
        Mode::OpaqueStipple => {
            let paint = stipple(data, foreground, background, address);
            drawing(faults, address, 32, op, pixels, paint)
        }
        Mode::TransparentStipple => {
            let paint = tile(foreground, foreground, address);
            drawing(faults, address, 32, op, data, paint)
        }
        Mode::OpaqueFill => {
            let f = fill_of(registers.fill, w);
            let paint = stipple(f.mask, foreground, background, f.first);
            drawing(faults, f.first, f.width, op, ONES, paint)
        }
        Mode::TransparentFill => {
            let f = fill_of(registers.fill, w);
            let paint = tile(foreground, foreground, f.first);
            drawing(faults, f.first, f.width, op, f.mask, paint)
        }
        Mode::BlockStipple => {
            let paint = tile(registers.block[0], registers.block[1], address);
            drawing(faults, address, 32, COPY, data, paint)
        }
        Mode::BlockFill => {
            let f = fill_of(registers.fill, w);
            let paint = tile(registers.block[0], registers.block[1], f.first);
            drawing(faults, f.first, f.width, COPY, f.mask, paint)
        }
        Mode::Copy => of_copy(faults, card.copier.writing, w, op),
        Mode::OpaqueLine | Mode::TransparentLine => { drawing(faults, 0, 0, op, 0, Paint::Half) }
        Mode::Unlisted => {
            let unlisted = Faults {
                mode: true,
                ..faults
            };
            drawing(unlisted, 0, 0, op, 0, Paint::Half)
        }
    }
}

// Where a fill's span starts, how wide it is, and its mask with the bit of its first pixel first.
#[derive(Clone, Copy)]
struct Fill {
    first: usize,
    width: u32,
    mask: u32,
}

// Data bits 17:16 are added to the address and slide the mask, bits 10:0 are the pixels less one. Made in fill modes alone, so that no other pays for it.
fn fill_of(mask: u32, w: Write) -> Fill
    ensures { (result.first ≡ fill_first w) × (result.width ≡ fill_width w) × (result.mask ≡ rotated_by mask (fill_low w)) }
{
    let low = w.data / 65536 % 4;
    let mask = rotated(mask, low);
    Fill {
        first: w.address as usize + low as usize,
        width: w.data % 2048 + 1,
        mask,
    }
}

// The word with its bit `low` first.
#[tactic(auto, using(crate::proofs::Rotation::rotated_whole))]
fn rotated(x: u32, low: u32) -> u32
    ensures { result ≡ rotated_by x low }
{
    x.rotate_right(low)
}

// A frame write in any mode but copy. Its six values stand apart, and no arm has a plan or a span of its own to take others from by `..base`: each such
// struct is one more that every write sets to 0 first (16 to 90 instructions a write, measured).
fn drawing(faults: Faults, first: usize, width: u32, op: u8, enable: u32, paint: Paint) -> Plan
    ensures { result ≡ drawing_plan faults first width op enable paint }
{
    Plan {
        faults,
        first,
        width,
        op,
        enable,
        paint,
        effect: Effect::UsesMask,
    }
}

// By a call a paint is a line; so is `tile`.
fn stipple(bits: u32, foreground: u32, background: u32, at: usize) -> Paint
    ensures { result ≡ Stippled bits foreground background at }
{
    Paint::Stippled {
        bits,
        foreground,
        background,
        at,
    }
}

fn tile(low: u32, high: u32, at: usize) -> Paint
    ensures { result ≡ Tiled low high at }
{
    Paint::Tiled { low, high, at }
}

// Of a frame write in copy mode, whose halves alternate.
fn of_copy(faults: Faults, writing: u32, w: Write, op: u8) -> Plan
    ensures { result ≡ copy_plan faults writing w op }
{
    let faults = Faults {
        address: w.address % 8 != 0,
        ..faults
    };
    let first = w.address as usize;
    if writing == CLEAR {
        return halved(faults, first, op, 0, Effect::ReadsSource);
    }
    halved(faults, first, op, w.data, Effect::DrawsDestination)
}

// A half of copy mode, written out as in `drawing`.
fn halved(faults: Faults, first: usize, op: u8, enable: u32, effect: Effect) -> Plan
    ensures { result ≡ halved_plan faults first op enable effect }
{
    Plan {
        faults,
        first,
        width: 32,
        op,
        enable,
        paint: Paint::Half,
        effect,
    }
}
