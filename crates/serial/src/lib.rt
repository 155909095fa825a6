// Traces that arrive over a serial line, read chunk by chunk: `new`, `chunk` and `end`. What each function means stands in the crate `line`.
// Inside, a refusal is an Err: `chunk` alone reads and writes the number of the reader, whose form C knows. Reader, card and VRAM stay three parameters, as
// they are lent to `chunk`: a struct of three loans would be made and taken apart in `chunk` alone.
#![tactic(auto)]

ghost use Rattle.std.specs.Prelude.{◌≡◌, true, false, length};
ghost use Rattle.card.specs.Registers.{is_set};
ghost use Rattle.format.specs.Traces.{header_size};
ghost use Rattle.line.specs.Ahead.{whole_at};
ghost use Rattle.line.specs.Serial.{standing, complete as is_complete, sound as is_sound, draws, byte as byte_of, chunk as chunk_of};
ghost use Rattle.serial.specs.Steps.{before, after};

use bounds::bad_length;
use card::{CLEAR, Card, Write};
use entries::entry_at;
use format::ENTRY;
use line::Reader;
use readers::{awaited, bad_pad, complete, opening, sound};
pub use readers::{end, new};
use rules::Refusal;

// The bytes begin with a whole entry, with zero pad bytes, and it is the next one.
#[tactic(auto, unfolding(line::specs::Ahead::whole_at, line::specs::Arrival::entry_there))]
fn whole_ahead(r: &Reader, bytes: &[u8]) -> bool
    ensures whole { result ≡ whole_at r.now bytes.now 0 }
    // that an array has its length is told only where its struct is read
    ensures room { length r.now.waiting ≡ header_size }
{
    r.opened != CLEAR
        && r.filled == 0
        && r.applied != r.announced
        && ENTRY <= bytes.len()
        && bytes[2] == 0
        && bytes[3] == 0
}

// One entry, drawn as the next one of a trace. Reader and card are changed in place.
fn draw(r: &mut Reader, w: Write, card: &mut Card, vram: &mut [u8]) -> Result<(), Refusal>
    requires { (is_sound r.old ≡ true) × (is_set r.old.opened ≡ true) × (is_complete r.old ≡ false) }
    ensures { after result r.new card.new vram.new ≡ draws w (before r.old card.old vram.old) }
{
    r.filled = 0;
    r.waiting = [0; 16];
    let tally = engine::write_to(card, w, vram)?;
    r.applied += 1;
    r.pixels += tally.enabled;
    r.changed += tally.changed;
    Ok(())
}

// One byte.
fn byte(r: &mut Reader, b: u8, card: &mut Card, vram: &mut [u8]) -> Result<(), Refusal>
    requires { is_sound r.old ≡ true }
    ensures { after result r.new card.new vram.new ≡ byte_of (before r.old card.old vram.old) b }
{
    if complete(r) || bad_pad(r, b) {
        return Err(Refusal::Malformed);
    }
    // beside the reader, since one that refuses its header keeps the bytes before the last
    let mut came = r.waiting;
    came[r.filled as usize] = b;
    if r.filled + 1 < awaited(r) {
        r.filled += 1;
        r.waiting = came;
        return Ok(());
    }
    if r.opened == CLEAR {
        return opening(r, &came);
    }
    draw(r, entry_at(&came, 0), card, vram)
}

// A chunk of a reader that no number stops: the bytes one after the other, whole entries at once.
fn read(r: &mut Reader, bytes: &[u8], card: &mut Card, vram: &mut [u8]) -> Result<(), Refusal>
    ensures { after result r.new card.new vram.new ≡ chunk_of bytes.now (before r.old card.old vram.old) }
{
    if !sound(r) {
        return Err(Refusal::Malformed);
    }
    if bad_length(vram.len()) {
        return Err(Refusal::Length);
    }
    let mut rest = bytes;
    while let [b, others @ ..] = rest {
        if whole_ahead(r, rest) {
            draw(r, entry_at(rest, 0), card, vram)?;
            rest = &rest[ENTRY..];
        } else {
            byte(r, *b, card, vram)?;
            rest = others;
        }
    }
    Ok(())
}

// One chunk, with the card and VRAM as the last one left them. `reader.number` is the answer.
pub fn chunk(reader: &mut Reader, card: &mut Card, bytes: &[u8], vram: &mut [u8])
    ensures { standing reader.new card.new vram.new ≡ chunk_of bytes.now (standing reader.old card.old vram.old) }
{
    if reader.number != 0 {
        return;
    }
    reader.number = read(reader, bytes, card, vram).err().map_or(0, u32::from);
}
