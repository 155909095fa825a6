// A write and a run as a C program gets them, on a card that is changed in place. The crates `host` and `host_run` call one of these each.
#![tactic(auto)]

ghost use Rattle.std.specs.Prelude.{◌≡◌, true, length};
ghost use Rattle.engine.specs.Text.{keeps};
ghost use Rattle.answers.specs.Answers.{Wrote, Replayed, answer_of};

use card::{Card, Write};
use format::STEP;
use rules::Refusal;
use span::Tally;

// What a write answers, laid out for C: its number, the pixels enabled, and those changed.
#[repr(C)]
#[derive(Clone, Copy)]
pub struct Answer {
    pub number: u32,
    pub count: u32,
    pub changed: u32,
}

// What a run answers, laid out for C: the number, the entries applied, the total pixels, those changed, and where the unread part begins.
#[repr(C)]
#[derive(Clone, Copy)]
pub struct Ran {
    pub number: u32,
    pub entries: u32,
    pub pixels: u32,
    pub changed: u32,
    pub rest: u32,
}

impl From<Result<Tally, Refusal>> for Answer {
    ghost from_gives = { λ told answer. answer ≡ answer_of told };

    fn from(told: Result<Tally, Refusal>) -> Answer {
        match told {
            Ok(tally) => Answer {
                number: 0,
                count: tally.enabled,
                changed: tally.changed,
            },
            Err(refusal) => Answer {
                number: u32::from(refusal),
                count: 0,
                changed: 0,
            },
        }
    }
}

// One write. The card is changed in place.
pub fn write_on(card: &mut Card, w: Write, vram: &mut [u8]) -> Answer
    ensures wrote { Wrote card.old w vram.old result card.new vram.new }
    ensures kept { keeps card.old w (length vram.old) ≡ true → card.new ≡ record card.old { mask = card.new.mask } }
{
    engine::write_to(card, w, vram).into()
}

// A run, with the offset of what it left unread.
pub fn run_on(card: &mut Card, part: &[u8], vram: &mut [u8], budget: u32) -> Ran
    ensures { Replayed part.now budget card.old vram.old result card.new vram.new }
{
    let ran = trace::run(part, card, vram, budget);
    // no From: only of a run is it known that the offset fits 32 bits
    Ran {
        number: ran.number(),
        entries: ran.applied,
        pixels: ran.pixels,
        changed: ran.changed,
        rest: STEP * ran.applied,
    }
}
