// A trace that arrives in chunks, on the front of a VRAM: its length from the header, each chunk, and what is answered when the input ends.
ghost use Rattle.std.specs.Prelude.{◌≡◌};
ghost use Rattle.line.specs.Serial.{standing};
ghost use Rattle.player.specs.Arriving.{length_of, fed, closed};

use crate::Played;
use card::Card;
use line::Reader;

// The VRAM length that the header says; none where it is none, or not whole.
#[tactic(auto, using(crate::proofs::Arrivals::length_said))]
pub fn length_of(header: &[u8]) -> Option<usize>
    ensures { result ≡ length_of header.now }
{
    checking::good_header(header).then_some(entries::word_at(header, 8) as usize)
}

// One chunk, on the first n bytes of VRAM. Where it has fewer, on none of them, which a reader that goes on answers with 1: so n is no slice.
#[tactic(auto, unfolding(crate::specs::Arriving::fed, crate::specs::Arriving::before))]
pub fn feed(reader: &mut Reader, card: &mut Card, bytes: &[u8], n: usize, vram: &mut [u8])
    ensures { standing reader.new card.new vram.new
        ≡ fed n bytes.now (standing reader.old card.old vram.old) }
{
    let front = if n <= vram.len() { n } else { 0 };
    serial::chunk(reader, card, bytes, &mut vram[..front]);
}

// The input ends: what is answered of a trace for a VRAM of `length` bytes.
#[tactic(auto, unfolding(crate::specs::Arriving::closed))]
pub fn close(mut reader: Reader, length: usize) -> Played
    ensures { result ≡ closed reader length }
{
    serial::end(&mut reader);
    Played {
        number: reader.number,
        entries: reader.applied,
        pixels: reader.pixels,
        changed: reader.changed,
        length,
    }
}
