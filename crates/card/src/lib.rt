// The card's state, its registers, and the writes that it is sent.
// What each function means stands in specs/, under the headings of the scope paper.
#![tactic(auto)]

ghost use Rattle.std.specs.Prelude.{◌≡◌};
ghost use Rattle.card.specs.Reset.{reset_card};

// What a register offset names. The lasting and the one-shot pixel mask are one value at two offsets. An offset that is not listed names `Missing`, and no
// Option stands around the rest: the definition `row_at` and the theorems give each of the 2^32 offsets a row.
#[derive(Clone, Copy, Debug, PartialEq, Eq)]
pub enum Register {
    Foreground,
    Background,
    PlaneMask,
    PixelMaskOnce,
    Mode,
    RasterOperation,
    PixelShift,
    Bresenham1,
    Bresenham2,
    Bresenham3,
    Continue,
    PixelMask,
    FillMask,
    BlockColour(u8),
    CopySource,
    CopyDestination,
    Missing,
}

// A row of the register table, as the definition `row` has it. `kept` is the mask of the bits that a write keeps and a read shows.
#[derive(Clone, Copy, Debug, PartialEq, Eq)]
pub struct Row {
    pub offset: u32,
    pub register: Register,
    pub kept: u32,
    pub reset: u32,
    pub readable: bool,
}

// What a register read answers to C, so both numbers stand side by side; in Rattle it is a Result.
#[repr(C)]
#[derive(Clone, Copy, Debug, PartialEq, Eq)]
pub struct Reading {
    pub number: u32,
    pub value: u32,
}

// The registers that hold a number of their own. Pixel shift can only hold 0, so it has no field.
#[repr(C)]
#[derive(Clone, Copy, Debug, PartialEq, Eq)]
pub struct Registers {
    pub foreground: u32,
    pub background: u32,
    pub plane: u32,
    pub mode: u32,
    pub raster: u32,
    pub bresenham1: u32,
    pub bresenham2: u32,
    pub bresenham3: u32,
    pub fill: u32,
    pub block: [u32; 8],
}

// The pixel mask, and whether it is one-shot. This mark and those below are words: C lays the card out, and any pattern of bytes that it lends is a card.
#[repr(C)]
#[derive(Clone, Copy, Debug, PartialEq, Eq)]
pub struct Mask {
    pub bits: u32,
    pub marked: u32,
}

// The copy buffer, whether it holds a 64-byte source, and the copy direction: whether the next copy write draws its destination.
#[repr(C)]
#[derive(Clone, Copy, Debug, PartialEq, Eq)]
pub struct Copier {
    pub buffer: [u8; 64],
    pub loaded: u32,
    pub writing: u32,
}

// Where the last line or continue stopped, for the next continue: the place and the error after its last step, and whether there was one. Both words are
// signed, in two's complement: the place can lie below 0. They are kept apart from the registers, which a line leaves alone.
#[repr(C)]
#[derive(Clone, Copy, Debug, PartialEq, Eq)]
pub struct Line {
    pub place: u32,
    pub error: u32,
    pub kept: u32,
}

// The whole state, in parts. Every field is a word or an array of a multiple of four bytes, so no byte of it is padding and every pattern of bytes
// is a card; a mark is set where its word is not 0. No write can change the held planes, bits 7:0 of `held`.
#[repr(C)]
#[derive(Clone, Copy, Debug, PartialEq, Eq)]
pub struct Card {
    pub registers: Registers,
    pub mask: Mask,
    pub copier: Copier,
    pub line: Line,
    pub held: u32,
}

// A mark as the engine stores it.
pub const SET: u32 = 1;

pub const CLEAR: u32 = 0;

// The two spaces.
pub const FRAME: u8 = 0;

pub const REGISTERS: u8 = 1;

// All four lanes.
pub const ALL_LANES: u8 = 15;

// One write, as the bus delivers it, to the frame or to the registers. Lanes, the scope paper's word, are the byte enables of the bus. Space and lanes are
// numbers, since any are taken, and those that are no space or too many lanes are refused.
#[derive(Clone, Copy, Debug, PartialEq, Eq)]
pub struct Write {
    pub space: u8,
    pub lanes: u8,
    pub address: u32,
    pub data: u32,
}

impl Write {
    // To the frame, with all lanes.
    pub fn frame(address: u32, word: u32) -> Write
        ensures { result ≡ record { space = 0; lanes = 15; address = address; «data» = word } }
    {
        Write {
            space: FRAME,
            lanes: ALL_LANES,
            address,
            data: word,
        }
    }

    // To the register at an offset, with all lanes.
    pub fn register(offset: u32, word: u32) -> Write
        ensures { result ≡ record { space = 1; lanes = 15; address = offset; «data» = word } }
    {
        Write {
            space: REGISTERS,
            lanes: ALL_LANES,
            address: offset,
            data: word,
        }
    }
}

// All 32 bits.
pub const ONES: u32 = 0xFFFF_FFFF;

// The lowest bit of the initial error in Bresenham 3, and its value; bits 14:4 hold nothing, bits 3:0 the length.
pub const ERROR_BIT: u32 = 15;

pub const ERROR_UNIT: u32 = 1 << ERROR_BIT;

impl Card {
    // Every register and mark at reset, with no plane held.
    pub const RESET: Card = Card {
        registers: Registers {
            foreground: 0,
            background: 0,
            plane: ONES,
            mode: 0,
            raster: 3,
            bresenham1: 0,
            bresenham2: 0,
            bresenham3: 0,
            fill: 0,
            block: [0, 0, 0, 0, 0, 0, 0, 0],
        },
        mask: Mask {
            bits: ONES,
            marked: CLEAR,
        },
        copier: Copier {
            buffer: [0; 64],
            loaded: CLEAR,
            writing: CLEAR,
        },
        line: Line {
            place: 0,
            error: 0,
            kept: CLEAR,
        },
        held: 0,
    };

    // A card at reset that holds the planes `held`.
    #[tactic(auto, unfolding(crate::specs::Reset::reset_card, crate::specs::Registers::row_at, crate::specs::Registers::row_in, crate::specs::Registers::table))]
    pub fn reset(held: u8) -> Card
        ensures { result ≡ reset_card held }
    {
        Card {
            held: held as u32,
            ..Card::RESET
        }
    }
}
