// A trace that arrives in chunks, as a C program hands it in: reader and card by value, as C knows these entries. Here they are lent on, and changed in
// place. What these functions mean stands in the crate `line`.
// They stand apart from the other entries for C (crates `host` and `host_run`) since each of these crates is compiled by itself, and a function with one caller
// is built into it: here the engine's write into `serial::draw`, which has two callers itself.
#![tactic(auto)]

ghost use Rattle.std.specs.Prelude.{◌≡◌};
ghost use Rattle.line.specs.Serial.{new_reader, standing, chunk, ended};

use card::Card;
use line::{Fed, Reader};

// A new reader.
#[unsafe(no_mangle)]
pub extern "C" fn zevkholtai_new_reader() -> Reader
    ensures { result ≡ new_reader }
{
    serial::new()
}

// One chunk, with the card and VRAM as the last one left them.
#[unsafe(no_mangle)]
pub extern "C" fn zevkholtai_chunk(reader: Reader, card: Card, bytes: &[u8], vram: &mut [u8]) -> Fed
    ensures { standing result.reader result.card vram.new ≡ chunk bytes.now (standing reader card vram.old) }
{
    let mut fed = Fed { reader, card };
    serial::chunk(&mut fed.reader, &mut fed.card, bytes, vram);
    fed
}

// The end call.
#[unsafe(no_mangle)]
pub extern "C" fn zevkholtai_end(mut reader: Reader) -> Reader
    ensures { result ≡ ended reader }
{
    serial::end(&mut reader);
    reader
}
