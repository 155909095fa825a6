// The pixels of a walk, drawn one visit after the other; a place may be visited again.
ghost use Rattle.std.specs.Prelude.{◌≡◌, false, ◌<◌, length, get_or, set};
ghost use Rattle.raster.specs.Pixel.{made, value};
ghost use Rattle.span.specs.Fragments.{paint, alters};
ghost use Rattle.rules.specs.Modes.{is_opaque_line};
ghost use Rattle.rules.specs.Lines.{visits as visits_from, strays, dot as dot_at};
ghost use Rattle.walks.specs.Contract.{Dotted, Visited};

use crate::steps::Walk;
use card::{Card, Write};
use rules::Mode;
use span::Tally;

// The cap bit of the mode register, bit 15, as a number.
const CAP: u32 = 0x8000;

fn is_opaque(m: Mode) -> bool
    ensures { result ≡ is_opaque_line m }
{
    matches!(m, Mode::OpaqueLine)
}

// One pixel drawn: 1 where it is another afterwards, else 0.
fn dot(vram: &mut [u8], p: usize, op: u8, mask: u8, source: u8) -> u32
    requires { p < length vram.old }
    ensures { (vram.new ≡ set vram.old p (made 8 op mask source (get_or vram.old p 0)))
        × (result ≡ value (alters op (paint mask source) (get_or vram.old p 0))) }
{
    let made = pixels::make(op, mask, source, vram[p]);
    vram[p] = made.byte;
    made.changed as u32
}

// Visit i, at address p, with what differs from one visit to the next; its mask is made as in `drawing`. It draws where it is shown, a clear bit of the line mask only in an opaque line.
fn visit(
    card: &Card,
    w: Write,
    opaque: bool,
    shown: bool,
    i: u32,
    p: usize,
    vram: &mut [u8],
) -> Tally
    requires { (p < length vram.old) × (i < 16) }
    ensures { Dotted card.now (dot_at opaque shown card.now w i p) vram.old result vram.new }
{
    let registers = &card.registers;
    let bit = (w.data >> i) % 2 == 1;
    if shown & (opaque | bit) {
        let op = (registers.raster % 16) as u8;
        let planes = patterns::planes(registers.plane, card.held);
        let mask = patterns::byte_at(planes, p);
        let colour = if bit {
            registers.foreground
        } else {
            registers.background
        };
        let source = patterns::byte_at(colour, p);
        let changed = dot(vram, p, op, mask, source);
        Tally {
            enabled: 1,
            changed,
        }
    } else {
        Tally::NONE
    }
}

// All visits of a walk whose places lie inside. With the cap bit clear the last one draws nothing.
pub(crate) fn draw(card: &Card, w: Write, walk: &Walk, vram: &mut [u8]) -> Tally
    requires { strays (length vram.old) (visits_from walk.now.bresenham1 walk.now.bresenham2 walk.now.visits walk.now.start) ≡ false }
    ensures { Visited card.now w (visits_from walk.now.bresenham1 walk.now.bresenham2 walk.now.visits walk.now.start) vram.old result vram.new }
{
    let mode = card.registers.mode;
    let opaque = is_opaque(modes::mode_of(mode));
    let cap = mode / CAP % 2 == 1;
    // the loop writes bytes, which the compiler cannot tell from the card's: it works on a copy
    let own = *card;
    let mut at = walk.start;
    let mut enabled = 0;
    let mut changed = 0;
    for i in 0..walk.visits {
        let p = (at.place.more - at.place.less) as usize;
        let shown = cap | (i + 1 != walk.visits);
        let one = visit(&own, w, opaque, shown, i, p, vram);
        enabled += one.enabled;
        changed += one.changed;
        at = walk.step(at);
    }
    Tally { enabled, changed }
}
