// The demonstration: a bedside screen of 256 by 256 pixels, drawn through the engine's writes alone.
// The alarm border stands in plane 7. A card that holds every other plane draws it, and the card that draws all the rest holds
// plane 7, so its grey fill leaves the border. The heart-beat is a curve of lines, and where one is longer than 16 pixels, of continues after it.
// A hatched band is drawn in two fills a row, which meet. A caliper is drawn by exclusive-or and taken off the same way, and the engine says
// both times how many pixels changed.
// With a name as argument it also writes the picture there, as a PGM.
#![tactic(auto)]

use arguments::argument;
use card::{Card, Write};
use span::Tally;
use std::io;
use std::rt::{Env, Files};

// Offsets of registers, then codes of modes, as the bus has them: address and data of a write are numbers.
const FOREGROUND: u32 = 0x0020;

const MODE: u32 = 0x0030;

const RASTER_OPERATION: u32 = 0x0034;

const BRESENHAM_1: u32 = 0x0040;

const BRESENHAM_2: u32 = 0x0044;

const BRESENHAM_3: u32 = 0x0048;

const CONTINUE: u32 = 0x004C;

const FILL_MASK: u32 = 0x0080;

const OPAQUE_FILL: u32 = 0x21;

const TRANSPARENT_FILL: u32 = 0x45;

// Capped: the last pixel of a line or a continue is drawn too.
const TRANSPARENT_LINE: u32 = 0x8006;

const XOR: u32 = 6;

// The line mask that draws at each of 16 visits.
const SOLID: u32 = 0xFFFF;

// The steps from pixel to pixel, as 16-bit address increments. A row up is -256.
const RIGHT: u32 = 1;

const DOWN: u32 = 256;

const UP: u32 = 0xFF00;

// A pixel's column and row.
#[derive(Clone, Copy)]
struct Point {
    x: u8,
    y: u8,
}

// One beat of 64 columns, as the corners of a curve from left to right. Its spike, 83 rows up and 91 down, wants continues.
const BEAT: [Point; 23] = [
    Point { x: 0, y: 170 },
    Point { x: 7, y: 170 },
    Point { x: 9, y: 166 },
    Point { x: 11, y: 163 },
    Point { x: 13, y: 163 },
    Point { x: 15, y: 166 },
    Point { x: 17, y: 170 },
    Point { x: 19, y: 170 },
    Point { x: 21, y: 179 },
    Point { x: 23, y: 96 },
    Point { x: 26, y: 187 },
    Point { x: 28, y: 170 },
    Point { x: 31, y: 169 },
    Point { x: 33, y: 167 },
    Point { x: 35, y: 163 },
    Point { x: 37, y: 157 },
    Point { x: 39, y: 154 },
    Point { x: 40, y: 154 },
    Point { x: 42, y: 157 },
    Point { x: 44, y: 162 },
    Point { x: 46, y: 167 },
    Point { x: 48, y: 169 },
    Point { x: 50, y: 170 },
];

// A hatch: the fill mask of each of eight rows. It comes again every 32 pixels, no sooner.
const HATCH: [u32; 8] = [
    0x0000000F, 0x000000F0, 0x00000F00, 0x0000F000, 0x000F0000, 0x00F00000, 0x0F000000, 0xF0000000,
];

// The pixels of the screen, row by row.
type Pixels = [u8; 65536];

// What a line makes of the way from one corner to the next: `straights` times the address increment `step` and `diagonals` times
// `diagonal`, spread evenly.
#[derive(Clone, Copy)]
struct Leg {
    straights: u8,
    diagonals: u8,
    step: u32,
    diagonal: u32,
}

impl Leg {
    // After each pixel comes one a column to the right, or a row up or down, or both.
    fn between(from: Point, to: Point) -> Leg {
        let columns = from.x.abs_diff(to.x);
        let rows = from.y.abs_diff(to.y);
        let vertical = if to.y < from.y { UP } else { DOWN };
        Leg {
            straights: columns.abs_diff(rows),
            diagonals: columns.min(rows),
            step: if columns < rows { vertical } else { RIGHT },
            diagonal: vertical.wrapping_add(RIGHT),
        }
    }

    // How many pixels the leg draws after its first corner.
    fn steps(&self) -> u32 {
        u32::from(self.straights) + u32::from(self.diagonals)
    }
}

// How many pixels a curve drew, by lines and by continues; too few to wrap.
#[derive(Clone, Copy)]
struct Drawn {
    lines: u32,
    continues: u32,
}

// A card, and the screen that it draws on.
#[derive(Drop)]
struct Screen<'a> {
    card: Card,
    pixels: &'a mut Pixels,
}

impl Screen<'_> {
    // The same screen under a copy of the card, so that the card stays as it is.
    fn lent(&mut self) -> Screen<'_> {
        Screen {
            card: self.card,
            pixels: self.pixels,
        }
    }

    // How many pixels are not the same in both.
    fn differing(&self, other: &Pixels) -> usize {
        counting::differing(self.pixels, other)
    }

    // The card goes by value: no proof yet lends one field beside another that is itself lent.
    fn write(&mut self, w: Write) -> Tally {
        let answer = engine::write(self.card, w, self.pixels);
        self.card = answer.card;
        answer.drawn.unwrap_or(Tally::NONE)
    }

    fn register(&mut self, offset: u32, data: u32) {
        self.write(Write::register(offset, data));
    }

    // Opaque fill in one colour.
    fn colour(&mut self, value: u32) {
        self.register(MODE, OPAQUE_FILL);
        self.register(FILL_MASK, 0xFFFFFFFF);
        self.register(FOREGROUND, value);
    }

    // A write at a pixel: the address of the four that it is among, and its place there beside the data of the mode.
    fn pixel(&mut self, address: u32, data: u32) -> Tally {
        self.write(Write::frame(address / 4 * 4, address % 4 * 65536 + data % 65536))
    }

    // One row of a fill: `width` + 1 pixels from column x of row y on.
    fn row(&mut self, x: u8, y: u32, width: u8) -> Tally {
        self.pixel(y % 256 * 256 + u32::from(x), u32::from(width))
    }

    // A filled box of `width` + 1 columns and `rows` rows.
    fn fill(&mut self, x: u8, y: u8, width: u8, rows: u32) {
        for i in 0..rows {
            self.row(x, u32::from(y) + i % 256, width);
        }
    }

    // The alarm border, four pixels wide.
    fn border(&mut self) {
        self.colour(0xFFFFFFFF);
        self.fill(0, 0, 255, 4);
        self.fill(0, 252, 255, 4);
        self.fill(0, 0, 3, 256);
        self.fill(252, 0, 3, 256);
    }

    // The Bresenham registers of a leg. A line has at most 16 pixels, so it gets those that whole continues leave over: the length modulo 16, where 0 means 16.
    // The initial error is signed, in 17 bits.
    fn aim(&mut self, leg: Leg) {
        let straights = u32::from(leg.straights);
        let diagonals = u32::from(leg.diagonals);
        let error = (131072 + diagonals - straights) % 131072;
        self.register(BRESENHAM_1, leg.step % 65536 * 65536 + diagonals * 2);
        self.register(BRESENHAM_2, leg.diagonal % 65536 * 65536 + straights * 2);
        self.register(
            BRESENHAM_3,
            error * 32768 + (straights + diagonals + 1) % 16,
        );
    }

    // A leg: its line from an address on, and the continues after it, 16 pixels each.
    fn leg(&mut self, leg: Leg, start: u32, drawn: &mut Drawn) {
        self.aim(leg);
        let line = self.pixel(start, SOLID);
        drawn.lines = drawn.lines.wrapping_add(line.enabled);
        for _ in 0..leg.steps() / 16 {
            let more = self.write(Write::register(CONTINUE, SOLID));
            drawn.continues = drawn.continues.wrapping_add(more.enabled);
        }
    }

    // Three beats and most of a fourth: 90 legs over 241 columns, with the point (0, 0) at the address `origin`.
    fn beats(&mut self, origin: u32, drawn: &mut Drawn) {
        for i in 0..90u8 {
            let from = corner(i);
            let start = u32::from(from.y) * 256 + u32::from(from.x) + origin % 512;
            self.leg(Leg::between(from, corner(i + 1)), start, drawn);
        }
    }

    // The trace: from column 8 on, then a column to the right of that, then a row down, so that the curve is two pixels thick.
    fn trace(&mut self) -> Drawn {
        self.register(MODE, TRANSPARENT_LINE);
        self.register(FOREGROUND, 0x7F7F7F7F);
        let mut drawn = Drawn {
            lines: 0,
            continues: 0,
        };
        for origin in [8, 9, 264] {
            self.beats(origin, &mut drawn);
        }
        drawn
    }

    // A hatched band of 24 rows: `width` + 1 columns from column x on, one fill a row.
    fn hatch(&mut self, x: u8, width: u8) {
        self.register(MODE, TRANSPARENT_FILL);
        self.register(FOREGROUND, 0x58585858);
        for (y, &mask) in (208..232).zip(HATCH.iter().cycle()) {
            self.register(FILL_MASK, mask);
            self.row(x, y, width);
        }
    }

    // An upright line, from row 60 on, and how many pixels the engine says it changed, which cannot be so many that they wrap. No one-shot pixel mask is set here, so a fill leaves the card as it is.
    fn upright(&mut self, x: u8) -> u32 {
        let mut changed: u32 = 0;
        for y in 60..190 {
            changed = changed.wrapping_add(self.row(x, y, 0).changed);
        }
        changed
    }

    // The caliper, by exclusive-or in its colour, and how many pixels it changed: two upright lines and a bar between them. Made again from the same
    // card, it is taken off.
    fn caliper(&mut self) -> u32 {
        self.register(RASTER_OPERATION, XOR);
        self.register(FOREGROUND, 0x40404040);
        let left = self.upright(31);
        let right = self.upright(95);
        let bar = self.row(32, 124, 62);
        left.wrapping_add(right).wrapping_add(bar.changed)
    }
}

// Corner i of beat after beat.
fn corner(i: u8) -> Point {
    let Point { x, y } = BEAT[(i % 23) as usize];
    Point {
        x: x % 64 + i / 23 % 4 * 64,
        y,
    }
}

// The alarm border, in plane 7 alone.
fn alarm(rt: &impl Print, pixels: &mut Pixels) -> io::Result<()> {
    let mut screen = Screen {
        card: Card::reset(0x7F),
        pixels,
    };
    screen.border();
    let n = counting::at_least(screen.pixels, 128);
    println!(rt; "alarm border, pixels: {n}")
}

// The heart-beat. Its three passes share pixels, so more are drawn than change.
fn heart(rt: &impl Print, screen: &mut Screen<'_>) -> io::Result<()> {
    let before = *screen.pixels;
    let Drawn { lines, continues } = screen.lent().trace();
    let n = screen.differing(&before);
    println!(rt; "heart-beat in three passes, pixels drawn by lines: {lines}")?;
    println!(rt; "pixels drawn by continues after the lines: {continues}")?;
    println!(rt; "heart-beat on the screen, pixels changed: {n}")
}

// The band in two fills side by side: from column 17, low bits 1, and from column 114, low bits 2. The hatch goes on across the seam,
// since both addresses are 16 more than a multiple of 32: one fill across both draws the same.
fn hatched(rt: &impl Print, screen: &mut Screen<'_>) -> io::Result<()> {
    let before = *screen.pixels;
    let mut whole = before;
    screen.lent().hatch(17, 96);
    screen.lent().hatch(114, 125);
    let mut other = Screen {
        card: screen.card,
        pixels: &mut whole,
    };
    other.hatch(17, 222);
    let n = screen.differing(&before);
    println!(rt; "hatch of two fills side by side, pixels changed: {n}")?;
    let n = screen.differing(&whole);
    println!(rt; "the same hatch in one fill across both, pixels that differ: {n}")
}

// The caliper, drawn and taken off from one card. Built into its caller: there one copy of the screen takes the place of another on the stack.
#[inline(always)]
fn measured<R: Print + Eprint + Env + Files>(rt: &R, screen: &mut Screen<'_>) -> io::Result<()> {
    let before = *screen.pixels;
    let drawn = screen.lent().caliper();
    println!(rt; "caliper drawn by exclusive-or, pixels changed: {drawn}")?;
    save(rt, screen.pixels);
    let taken_off = screen.lent().caliper();
    println!(rt; "caliper taken off the same way, pixels changed: {taken_off}")?;
    let n = screen.differing(&before);
    println!(rt; "pixels left of the caliper: {n}")
}

// Draws the screen, and says what was drawn. The card that holds plane 7 is left in opaque fill.
fn bedside<R: Print + Eprint + Env + Files>(rt: &R, pixels: &mut Pixels) -> io::Result<()> {
    alarm(rt, pixels)?;
    let mut screen = Screen {
        card: Card::reset(0x80),
        pixels,
    };
    screen.colour(0x30303030);
    screen.fill(0, 0, 255, 256);
    let n = counting::at_least(screen.pixels, 128);
    println!(rt; "alarm border after a grey fill of the whole screen, pixels: {n}")?;
    heart(rt, &mut screen)?;
    hatched(rt, &mut screen)?;
    measured(rt, &mut screen)
}

// The picture, in the file that the argument names.
fn save<R: Eprint + Env + Files>(rt: &R, pixels: &Pixels) {
    if let Some(path) = argument(rt, 1, &mut [0; 4096]) {
        let _ = show::picture(rt, path, pixels, 256);
    }
}

fn main(rt: HostRuntime) -> io::Result<()> {
    let mut pixels = [0u8; 65536];
    bedside(&rt, &mut pixels)
}
