// Samples S1 to S12 of the scope paper, S6 in the reading of Ask 1, through the code, each compared with what it should be.
#![tactic(auto)]

ghost use Rattle.std.specs.Prelude.{◌≤◌};

use card::{Card, Write};
use composing::compose;
use rules::Refusal;
use std::io;

// Offsets and codes are written out, as in every test: a name taken from the code would not show it wrong.
const FOREGROUND: u32 = 0x0020;

const BACKGROUND: u32 = 0x0024;

const PLANE_MASK: u32 = 0x0028;

const MODE: u32 = 0x0030;

const FILL_MASK: u32 = 0x0080;

const BLOCK_COLOUR_0: u32 = 0x0140;

const BLOCK_COLOUR_1: u32 = 0x0144;

const COPY_DESTINATION: u32 = 0x0164;

const TRANSPARENT_STIPPLE: u32 = 0x05;

const COPY: u32 = 0x07;

const OPAQUE_FILL: u32 = 0x21;

const BLOCK_FILL: u32 = 0x2D;

const ZEROS: [u8; 64] = [0; 64];

// The card at reset, and then each offset written with its data.
fn card_with(registers: &[(u32, u32)]) -> Card {
    let mut card = Card::reset(0);
    for (offset, data) in registers {
        card = engine::write(card, Write::register(*offset, *data), &mut [0; 64]).card;
    }
    card
}

// The picture with four pixels set, from pixel p on.
fn with_four(mut picture: [u8; 64], p: usize, pixels: [u8; 4]) -> [u8; 64]
    requires { p ≤ 60 }
{
    picture[p..p + 4].copy_from_slice(&pixels);
    picture
}

// The write answers with so many pixels enabled and changed, or with that refusal, and leaves the picture as it should be. The pixels changed are worked out
// by hand from the paper's pictures, before and after. Counts are pairs, enabled and changed: a tally in each sample would take four lines.
fn leaves(
    card: Card,
    w: Write,
    mut vram: [u8; 64],
    answer: Result<(u32, u32), Refusal>,
    right: [u8; 64],
) -> bool {
    let drawn = engine::write(card, w, &mut vram).drawn;
    drawn.map(|tally| (tally.enabled, tally.changed)) == answer && vram == right
}

// An accepted write on 64 zeros.
fn draws(card: Card, w: Write, counts: (u32, u32), right: [u8; 64]) -> bool {
    leaves(card, w, ZEROS, Ok(counts), right)
}

// A refused one leaves them.
fn refuses(card: Card, w: Write, refusal: Refusal) -> bool {
    leaves(card, w, ZEROS, Err(refusal), ZEROS)
}

fn s1() -> bool {
    let right = with_four(ZEROS, 0, [0x11, 0x22, 0x33, 0x44]);
    draws(Card::reset(0), Write::frame(0, 0x44332211), (4, 4), right)
}

fn s2() -> bool {
    let w = Write {
        lanes: 5,
        ..Write::frame(0, 0x44332211)
    };
    let right = with_four(ZEROS, 0, [0x11, 0, 0x33, 0]);
    draws(Card::reset(0), w, (2, 2), right)
}

fn s3() -> bool {
    let ones = [0xFF; 64];
    let right = with_four(ones, 0, [0x80; 4]);
    leaves(
        Card::reset(0x80),
        Write::frame(0, 0),
        ones,
        Ok((4, 4)),
        right,
    )
}

fn stipple() -> Card {
    card_with(&[(MODE, TRANSPARENT_STIPPLE), (FOREGROUND, 0xAAAAAAAA)])
}

fn s4() -> bool {
    let first = with_four(ZEROS, 32, [0xAA, 0, 0, 0]);
    let right = with_four(first, 60, [0, 0, 0, 0xAA]);
    draws(stipple(), Write::frame(32, 0x80000001), (2, 2), right)
}

fn s5() -> bool {
    refuses(stipple(), Write::frame(36, 0x80000001), Refusal::Outside)
}

fn s6() -> bool {
    let card = card_with(&[
        (MODE, OPAQUE_FILL),
        (FOREGROUND, 0x01010101),
        (BACKGROUND, 0x02020202),
        (FILL_MASK, 0xF),
    ]);
    let first = with_four(ZEROS, 0, [0, 0, 1, 1]);
    let right = with_four(first, 4, [2; 4]);
    draws(card, Write::frame(0, 0x00020005), (6, 6), right)
}

fn s7() -> bool {
    let card = card_with(&[
        (MODE, BLOCK_FILL),
        (BLOCK_COLOUR_0, 0x03020100),
        (BLOCK_COLOUR_1, 0x07060504),
        (FILL_MASK, 0xFFFFFFFF),
    ]);
    let right = with_four(ZEROS, 4, [4, 5, 6, 7]);
    draws(card, Write::frame(4, 3), (4, 4), right)
}

fn s8() -> bool {
    let card = card_with(&[(PLANE_MASK, 0x0F)]);
    let right = with_four(ZEROS, 0, [0x0F, 0, 0, 0]);
    draws(card, Write::frame(0, 0xFFFFFFFF), (4, 1), right)
}

fn s9() -> bool {
    compose(6, 6) == 5 && compose(3, 6) == 0 && compose(1, 7) == 3 && compose(6, 1) == 2
}

// Bytes 0 to 31 equal their index, and the first 16 of them are copied to 32.
fn s10() -> bool {
    let mut vram = ZEROS;
    for i in 0..32u8 {
        vram[i as usize] = i;
    }
    let mut right = vram;
    right.copy_within(0..16, 32);
    let read = engine::write(
        card_with(&[(MODE, COPY)]),
        Write::frame(0, 0xFFFFFFFF),
        &mut vram,
    );
    read.drawn
        .is_ok_and(|tally| tally.enabled == 0 && tally.changed == 0)
        && leaves(
            read.card,
            Write::frame(32, 0xFFFF),
            vram,
            Ok((16, 15)),
            right,
        )
}

fn s11() -> bool {
    let w = Write::register(COPY_DESTINATION, 0);
    refuses(Card::reset(0), w, Refusal::Unloaded)
}

// The whole trace of S12.
const TRACE: [u8; 28] = [
    0x01, 0x00, 0x00, 0x00, 0x10, 0x00, 0x00, 0x00, 0x40, 0x00, 0x00, 0x00, 0x1C, 0x00, 0x00, 0x00,
    0x00, 0x0F, 0x00, 0x00, 0x00, 0x00, 0x00, 0x00, 0x11, 0x22, 0x33, 0x44,
];

fn s12() -> bool {
    let mut buffer = [0; 28];
    recorded(&mut buffer) == Ok(28) && buffer == TRACE
}

// The length of a trace of one write.
fn recorded(buffer: &mut [u8]) -> Result<usize, Refusal> {
    let used = recording::start(buffer, 64)?;
    recording::append(buffer, used, Write::frame(0, 0x44332211))
}

fn main(rt: HostRuntime) -> io::Result<()> {
    // a function each: every sample has a card, a write and a picture of its own
    let samples = [
        s1(),
        s2(),
        s3(),
        s4(),
        s5(),
        s6(),
        s7(),
        s8(),
        s9(),
        s10(),
        s11(),
        s12(),
    ];
    for (sample, ok) in (1..=12u32).zip(samples) {
        let verdict = if ok { "ok" } else { "DIFFERS" };
        println!(rt; "S{sample} {verdict}")?;
    }
    Ok(())
}
