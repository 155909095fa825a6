// A reader of traces that arrive: a new one, the end call, and what can be told without the engine. What each function means stands in the crate `line`.
#![tactic(auto)]

ghost use Rattle.std.specs.Prelude.{◌≡◌, cond};
ghost use Rattle.rules.specs.Numbers.{told};
ghost use Rattle.format.specs.Bytes.{word};
ghost use Rattle.format.specs.Traces.{good_header};
ghost use Rattle.line.specs.Serial.{new_reader, awaited as are_awaited, complete as is_complete, bad_pad as is_bad_pad, sound as is_sound, stuck, headed, ended};

use card::{CLEAR, SET};
use checking::good_header;
use entries::word_at;
use format::{LARGEST, OFFSET, STEP};
use line::Reader;
use rules::Refusal;

// A new reader: no byte has come.
#[tactic(auto, unfolding(line::specs::Serial::new_reader))]
pub fn new() -> Reader
    ensures { result ≡ new_reader }
{
    Reader {
        number: 0,
        opened: 0,
        announced: 0,
        applied: 0,
        pixels: 0,
        changed: 0,
        filled: 0,
        waiting: [0; 16],
    }
}

// ---- Tests of a reader.

// How many bytes are awaited: the header's, and then each entry's.
pub fn awaited(r: &Reader) -> u32
    ensures { result ≡ are_awaited r.now }
{
    if r.opened == CLEAR { OFFSET } else { STEP }
}

// All entries that the header announces are applied.
#[tactic(auto, unfolding(line::specs::Serial::complete))]
pub fn complete(r: &Reader) -> bool
    ensures { result ≡ is_complete r.now }
{
    r.opened != CLEAR && r.applied == r.announced
}

// A pad byte that is not zero.
#[tactic(auto, unfolding(line::specs::Serial::bad_pad))]
pub fn bad_pad(r: &Reader, b: u8) -> bool
    ensures { result ≡ is_bad_pad r.now b }
{
    r.opened != CLEAR && matches!(r.filled, 2 | 3) && b != 0
}

// The most pixels of one write.
const WIDEST: u32 = 2048;

// A reader that can be.
#[tactic(auto, unfolding(line::specs::Serial::sound_up_to))]
pub fn sound(r: &Reader) -> bool
    ensures { result ≡ is_sound r.now }
{
    r.filled < awaited(r)
        && r.applied <= r.announced
        && r.announced <= LARGEST as u32
        && r.pixels <= WIDEST * r.applied
        && r.changed <= r.pixels
}

// ---- What a whole header and the end call leave.

// A header that is whole opens the trace, or is refused. The number of the reader is the caller's to write.
pub fn opening(r: &mut Reader, came: &[u8; 16]) -> Result<(), Refusal>
    ensures answers { stuck (told result) r.new ≡ cond (good_header came.now) (headed (word came.now 0) (stuck 0 r.old)) (stuck 10 r.old) }
    ensures number { r.new.number ≡ r.old.number }
{
    if !good_header(came) {
        return Err(Refusal::Malformed);
    }
    *r = Reader {
        number: r.number,
        opened: SET,
        announced: word_at(came, 0),
        ..new()
    };
    Ok(())
}

// The end call answers 10 where bytes are owed.
#[tactic(auto, unfolding(line::specs::Serial::ended_up_to))]
pub fn end(r: &mut Reader)
    ensures { r.new ≡ ended r.old }
{
    if r.number == 0 && !(sound(r) && complete(r)) {
        r.number = u32::from(Refusal::Malformed);
    }
}
