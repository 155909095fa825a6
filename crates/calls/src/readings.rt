// Register reads, beside the scope paper's "Registers".
use crate::score::Score;
use access::read;
use card::{Card, Registers, Write};

// Offsets and values are written out: a name taken from the code would not show it wrong.
const ONES: u32 = 0xFFFF_FFFF;

// The two offsets of the pixel mask.
const ONE_SHOT: u32 = 0x002C;

const LASTING: u32 = 0x005C;

const RASTER_OPERATION: u32 = 0x0034;

const PIXEL_SHIFT: u32 = 0x0038;

const BRESENHAM_3: u32 = 0x0048;

// Every register that can be read: its offset, its value at reset, a value to write, and what is read once all are written. A row is a line so, and a struct
// would take six.
pub(crate) const ROWS: [(u32, u32, u32, u32); 20] = [
    (0x0020, 0, 0x1122_3344, 0x1122_3344), // foreground
    (0x0024, 0, 0x5566_7788, 0x5566_7788), // background
    (0x0028, ONES, 0x99AA_BBCC, 0x99AA_BBCC), // plane mask
    (0x002C, ONES, 0x0F0F_0F0F, 0x33CC_33CC), // pixel mask, one value with that at 005Ch, which is written later
    (0x0030, 0, 0x0000_0045, 0x0000_0045), // mode
    (0x0034, 3, 0xFFFF_F0F6, 0x0000_0006), // raster operation, bits 3:0
    (0x0038, 0, 0xFFFF_FFF0, 0x0000_0000), // pixel shift, bits 3:0
    (0x0040, 0, 0x1234_9876, 0x1234_9876), // Bresenham 1 and 2
    (0x0044, 0, 0xFEDC_1357, 0xFEDC_1357),
    (0x0048, 0, 0xA5A5_FFFA, 0xA5A5_800A), // Bresenham 3, bits 31:15 and 3:0
    (0x005C, ONES, 0x33CC_33CC, 0x33CC_33CC), // pixel mask
    (0x0080, 0, 0xDDEE_FF01, 0xDDEE_FF01), // data
    (0x0140, 0, 0x8070_6050, 0x8070_6050), // block colours
    (0x0144, 0, 0x8171_6151, 0x8171_6151),
    (0x0148, 0, 0x8272_6252, 0x8272_6252),
    (0x014C, 0, 0x8373_6353, 0x8373_6353),
    (0x0150, 0, 0x8474_6454, 0x8474_6454),
    (0x0154, 0, 0x8575_6555, 0x8575_6555),
    (0x0158, 0, 0x8676_6656, 0x8676_6656),
    (0x015C, 0, 0x8777_6757, 0x8777_6757),
];

// The card after a write, with 64 zeros for VRAM.
pub(crate) fn after(card: Card, w: Write) -> Card {
    engine::write(card, w, &mut [0; 64]).card
}

pub(crate) fn at_reset(held: u8) -> usize {
    let card = Card::reset(held);
    ROWS.iter()
        .filter(|(offset, reset, _, _)| read(&card, *offset) == Ok(*reset))
        .count()
}

// Every register written, from the first row to the last.
pub(crate) fn all_written() -> Card {
    let mut card = Card::reset(0);
    for (offset, _, written, _) in ROWS {
        card = after(card, Write::register(offset, written));
    }
    card
}

pub(crate) fn after_writes() -> usize {
    let card = all_written();
    ROWS.iter()
        .filter(|(offset, _, _, left)| read(&card, *offset) == Ok(*left))
        .count()
}

// One value at both offsets. A one-shot mask stays after a refused frame write, here past the end of VRAM, and is used up by an
// accepted one; a lasting mask stays.
pub(crate) fn pixel_mask() -> usize {
    let once = after(Card::reset(0), Write::register(ONE_SHOT, 0x0F0F_0F0F));
    let lasting = after(once, Write::register(LASTING, 0x33CC_33CC));
    let mut score = Score::new();
    for (card, mask) in [
        (once, 0x0F0F_0F0F),
        (after(once, Write::frame(64, 0)), 0x0F0F_0F0F),
        (after(once, Write::frame(0, 0)), ONES),
        (lasting, 0x33CC_33CC),
        (after(lasting, Write::frame(0, 0)), 0x33CC_33CC),
    ] {
        score.add(read(&card, ONE_SHOT) == Ok(mask));
        score.add(read(&card, LASTING) == Ok(mask));
    }
    score.right
}

// Offset, data and what it reads as, once written at reset: raster-operation bits 31:12 and 7:4, pixel-shift bits 31:4, and
// bits 14:4 of Bresenham 3.
const IGNORED: [(u32, u32, u32); 8] = [
    (RASTER_OPERATION, 0xFFFF_F00A, 0xA),
    (RASTER_OPERATION, 0x0000_00F5, 0x5),
    (RASTER_OPERATION, 0x8000_1090, 0x0),
    (RASTER_OPERATION, 0xFFFF_F0FF, 0xF),
    (PIXEL_SHIFT, 0xFFFF_FFF0, 0),
    (PIXEL_SHIFT, 0x0000_0010, 0),
    (BRESENHAM_3, 0x0000_7FF0, 0),
    (BRESENHAM_3, ONES, 0xFFFF_800F),
];

pub(crate) fn ignored_bits() -> usize {
    IGNORED
        .iter()
        .filter(|(offset, data, value)| {
            let card = after(Card::reset(0), Write::register(*offset, *data));
            read(&card, *offset) == Ok(*value)
        })
        .count()
}

// A card at reset, but for its raster operation.
fn with_operation(raster: u32) -> Card {
    let registers = Registers {
        raster,
        ..Card::RESET.registers
    };
    Card {
        registers,
        ..Card::RESET
    }
}

// A card handed in with a raster operation or a Bresenham 3 that no write leaves: the same bits of it.
pub(crate) fn handed_in() -> usize {
    let mut line = Card::reset(0);
    line.registers.bresenham3 = ONES;
    [
        (with_operation(0xFFFF_F0F6), RASTER_OPERATION, 0x6),
        (with_operation(0x0000_0F00), RASTER_OPERATION, 0x0),
        (with_operation(0x0000_000F), RASTER_OPERATION, 0xF),
        (line, BRESENHAM_3, 0xFFFF_800F),
    ]
    .iter()
    .filter(|(card, offset, value)| read(card, *offset) == Ok(*value))
    .count()
}
