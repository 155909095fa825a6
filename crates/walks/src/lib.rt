// The walk of a line or a continue (Ask 5): judged whole, then drawn visit by visit. What it means stands in `rules/specs/Lines.antt`,
// what is promised here in specs/. Card and write stand apart, as in the crate `engine`.
#![tactic(auto)]

ghost use Rattle.std.specs.Prelude.{◌≡◌};
ghost use Rattle.rules.specs.Lines.{start, visit_count};
ghost use Rattle.walks.specs.Contract.{Walked};

use card::{CLEAR, Card, ERROR_BIT, Line, REGISTERS, SET, Write};
use rules::{Refusal, Visit};
use span::Tally;
use steps::Walk;

mod dots;
mod steps;
mod wholes;

// The visits of a continue, and of a line whose length is 0.
const LONGEST: u32 = 16;

// Where the walk starts.
#[tactic(auto, unfolding(rules::specs::Lines::start))]
fn start_of(card: &Card, w: Write) -> Visit
    ensures { result ≡ start card.now w }
{
    if w.space == REGISTERS {
        return Visit {
            place: wholes::signed(32, 0, card.line.place),
            error: wholes::signed(32, 0, card.line.error),
        };
    }
    let low = w.data / 65536 % 4;
    Visit {
        place: wholes::natural(w.address as u64 + low as u64),
        error: wholes::signed(32 - ERROR_BIT, ERROR_BIT, card.registers.bresenham3),
    }
}

// How many visits it has: 0 for a continue before any line, as the definition has it.
#[tactic(auto, unfolding(rules::specs::Lines::visit_count))]
fn visits_of(card: &Card, w: Write) -> u32
    ensures { result ≡ visit_count card.now w }
{
    if w.space == REGISTERS {
        if card.line.kept == CLEAR {
            return 0;
        }
        return LONGEST;
    }
    let length = card.registers.bresenham3 % 16;
    if length == 0 { LONGEST } else { length }
}

// A write taken for a line, or for a continue where it is a register write: refused for its places, then for its errors over the whole walk, then where
// there is none; or drawn, and the card keeps where it stopped. Never built into the write, whose other ways would then move more words.
#[inline(never)]
pub fn draw(card: &mut Card, w: Write, vram: &mut [u8]) -> Result<Tally, Refusal>
    ensures { Walked card.old w vram.old result card.new vram.new }
{
    let walk = Walk {
        bresenham1: card.registers.bresenham1,
        bresenham2: card.registers.bresenham2,
        visits: visits_of(card, w),
        start: start_of(card, w),
    };
    let end = walk.judge(vram.len())?;
    if walk.visits == 0 {
        return Err(Refusal::NoLine);
    }
    let tally = dots::draw(card, w, &walk, vram);
    card.line = Line {
        place: wholes::word(end.place),
        error: wholes::word(end.error),
        kept: SET,
    };
    Ok(tally)
}
