// The plan of a write: what is drawn where and what becomes of the card, decided once. Refusal, drawing and the next card use it.
#![tactic(auto)]

use card::Register;

// The last of the sixteen raster operations.
pub const LAST_OPERATION: u32 = 15;

// The operation that takes the source. An operation is its number, of four bits, by which pixels are made (`span::Strokes`).
pub const COPY: u8 = 3;

// What the pixels of a span take. `at` is the address of the first, for the bytes that go by address.
#[derive(Clone, Copy)]
pub enum Paint {
    // foreground where bit j mod 32 is set, else background: of each the byte of the address mod 4
    Stippled {
        bits: u32,
        foreground: u32,
        background: u32,
        at: usize,
    },
    // two words side by side, low first: the byte of the address mod 8
    Tiled {
        low: u32,
        high: u32,
        at: usize,
    },
    // the copy buffer's first 32 bytes, or all 64
    Half,
    Whole,
}

// What becomes of an accepted write's card.
#[derive(Clone, Copy)]
pub enum Effect {
    // a frame write uses a one-shot pixel mask up
    UsesMask,
    // so does one in copy mode, which reads its source or draws its destination
    ReadsSource,
    DrawsDestination,
    // a register write
    Stores { register: Register, value: u32 },
    // the 64-byte copy
    Loads,
    Unloads,
}

// The tests of 3, 4, 5, 6, 7 and 9, by what is at fault: bools, since several can be at once, and the first in the order of refusal is told.
#[derive(Clone, Copy)]
pub struct Faults {
    pub lanes: bool,
    pub register: bool,
    pub mode: bool,
    pub raster: bool,
    pub address: bool,
    pub source: bool,
}

#[derive(Clone, Copy)]
pub struct Plan {
    pub faults: Faults,
    // the span, whose pixel j is enabled by bit j mod 32
    pub first: usize,
    pub width: u32,
    pub op: u8,
    pub enable: u32,
    pub paint: Paint,
    pub effect: Effect,
}
