// A trace that arrives on standard input. The header's 16 bytes are gathered first, since the length of VRAM stands there; then each read is fed as soon
// as it has come, and nothing is kept but the reader's own state.
ghost use Rattle.std.specs.Prelude.{◌≤◌, length, IfSome};

use crate::{complain, input};
use bounds::LARGEST_VRAM;
use card::Card;
use format::{ENTRY, LARGEST};
use player::Played;
use std::io;
use std::io::Read;

fn failed(rt: &impl Eprint, error: io::Error) {
    complain(rt, format_args!("standard input: {error}"));
}

// One read: the bytes that came. None at the end of the input; a read that fails ends it too, and says so.
fn some<'a, I: Read>(rt: &impl Eprint, input: &mut I, buffer: &'a mut [u8]) -> Option<&'a [u8]>
    ensures { IfSome result (λ bytes. length bytes.now ≤ length buffer.old) }
{
    match input.read(buffer) {
        Ok(0) => None,
        Ok(n) => Some(&buffer[..n]),
        Err(error) => {
            failed(rt, error);
            None
        }
    }
}

// The trace from reset to the end of the input, or until a number comes. Where there is no header the reader is lent all of VRAM, so that it answers
// 10 and not 1.
pub(crate) fn run<I: Read>(rt: &impl Eprint, input: &mut I, held: u8, vram: &mut [u8]) -> Played {
    let mut header = [0u8; 16];
    let header = input::full(input, &mut header, |error| failed(rt, error));
    let length = player::length_of(header);
    let mut reader = serial::new();
    let mut card = Card::reset(held);
    player::feed(
        &mut reader,
        &mut card,
        header,
        length.unwrap_or(LARGEST_VRAM),
        vram,
    );
    let Some(length) = length else {
        return player::close(reader, 0);
    };
    let mut buffer = [0u8; 4096];
    // Each turn reads a byte at least, and one byte more than the entries of the largest trace is past every total: so many turns suffice.
    for _ in 0..ENTRY * LARGEST + 1 {
        if reader.number != 0 {
            break;
        }
        let Some(bytes) = some(rt, input, &mut buffer) else {
            break;
        };
        player::feed(&mut reader, &mut card, bytes, length, vram);
    }
    player::close(reader, length)
}
