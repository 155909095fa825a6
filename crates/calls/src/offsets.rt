// Offsets that answer 4 with the number 0 when read, beside the scope paper's "Registers".
use crate::readings::{ROWS, after, all_written};
use crate::score::Score;
use access::read;
use card::{Card, Write};
use rules::Refusal;

// Written out, as in `readings`.
const MODE: u32 = 0x0030;

// Continue, and the 64-byte copy.
const CONTINUE: u32 = 0x004C;

const SOURCE: u32 = 0x0160;

const DESTINATION: u32 = 0x0164;

// A line, without its last place.
const TRANSPARENT_LINE_CAP: u32 = 0x8006;

// Whether it is one of the offsets that can be read.
fn is_listed(offset: u32) -> bool {
    ROWS.iter().any(|(listed, _, _, _)| *listed == offset)
}

fn is_refused(card: &Card, offset: u32) -> bool {
    read(card, offset) == Err(Refusal::Register)
}

// Every other offset below 1000h, 004Ch, 0160h and 0164h among them.
pub(crate) fn low() -> usize {
    let card = all_written();
    (0..0x1000u32)
        .filter(|offset| !is_listed(*offset) && is_refused(&card, *offset))
        .count()
}

// Listed offsets with higher bits set, some of them aliases on the chip; and all ones.
const HIGH: [u32; 6] = [
    0x0000_1020,
    0x0001_0028,
    0x000F_FE30,
    0x0010_0080,
    0x8000_0140,
    0xFFFF_FFFF,
];

pub(crate) fn high() -> usize {
    let card = all_written();
    HIGH.iter()
        .filter(|offset| is_refused(&card, **offset))
        .count()
}

// At reset, with a source loaded, with that copied, and after a line.
pub(crate) fn write_only() -> usize {
    let reset = Card::reset(0);
    let loaded = after(reset, Write::register(SOURCE, 0));
    let copied = after(loaded, Write::register(DESTINATION, 0));
    let lines = after(copied, Write::register(MODE, TRANSPARENT_LINE_CAP));
    let drawn = after(lines, Write::frame(0, 1));
    let mut score = Score::new();
    for card in [reset, loaded, copied, drawn] {
        for offset in [CONTINUE, SOURCE, DESTINATION] {
            score.add(is_refused(&card, offset));
        }
    }
    score.right
}
