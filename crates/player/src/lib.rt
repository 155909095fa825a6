// Replaying a recorded trace: the run of a whole trace from reset, and a trace that arrives in chunks.
#![tactic(auto)]

ghost use Rattle.std.specs.Prelude.{◌≡◌};
ghost use Rattle.player.specs.Playing.{not_played, played_so, played, pictured};

use card::Card;
use rules::Refusal;

mod arriving;

pub use arriving::{close, feed, length_of};

// What replaying a trace answers: what the run or the end call answers, and the VRAM length of the trace's header. `play` answers 0 for it where it is no
// trace or the VRAM lent is shorter, `close` what it is given. The number is a word, as in the reader, which C may hand in with any number.
// It is made field by field: its length comes from elsewhere, so no `From` gives it.
#[derive(Clone, Copy)]
pub struct Played {
    pub number: u32,
    pub entries: u32,
    pub pixels: u32,
    pub changed: u32,
    pub length: usize,
}

impl Played {
    // Nothing is run.
    fn refused(refusal: Refusal) -> Played
        ensures { result ≡ not_played refusal }
    {
        Played {
            number: u32::from(refusal),
            entries: 0,
            pixels: 0,
            changed: 0,
            length: 0,
        }
    }
}

// The whole trace from reset on the front of VRAM, where the bytes are one and VRAM is long enough for it.
fn run(bytes: &[u8], held: u8, vram: &mut [u8]) -> Result<Played, Refusal>
    ensures { (played_so result ≡ played bytes.now held vram.old)
        × (vram.new ≡ pictured bytes.now held vram.old) }
{
    let trace = checking::check(bytes)?;
    let n = trace.vram as usize;
    if vram.len() < n {
        return Err(Refusal::Length);
    }
    let mut card = Card::reset(held);
    let ran = trace::run(trace.entries, &mut card, &mut vram[..n], u32::MAX);
    Ok(Played {
        number: ran.number(),
        entries: ran.applied,
        pixels: ran.pixels,
        changed: ran.changed,
        length: n,
    })
}

// The same, a refusal told by its number.
pub fn play(bytes: &[u8], held: u8, vram: &mut [u8]) -> Played
    ensures { (result ≡ played bytes.now held vram.old)
        × (vram.new ≡ pictured bytes.now held vram.old) }
{
    run(bytes, held, vram).unwrap_or_else(Played::refused)
}
