// A header and an entry stored as bytes.
ghost use Rattle.std.specs.Prelude.{◌≡◌, ◌+◌, ◌*◌, ◌^◌, ◌≤◌, ◌<◌, length};
ghost use Rattle.std.proofs.lemmas.List.Edits.{sets};
ghost use Rattle.format.specs.Traces.{header_size, entry_size, header, entry};

use crate::words::{put_bytes, put_word};
use card::Write;
use format::{OFFSET, STEP};

// The header of so many entries for a VRAM of `vram` bytes, stored at the front.
#[tactic(auto, using(crate::proofs::Stores::put_header))]
pub(crate) fn put_header(b: &mut [u8], count: u32, vram: u32)
    requires { (header_size ≤ length b.old) × (header_size + entry_size * count < 2 ^ 32) }
    ensures { b.new ≡ sets b.old 0 (header count vram) }
{
    put_word(b, 0, count);
    put_word(b, 4, OFFSET);
    put_word(b, 8, vram);
    put_word(b, 12, OFFSET + STEP * count);
}

// The entry of a write stored from `at` on.
#[tactic(auto, using(crate::proofs::Stores::put_entry))]
pub(crate) fn put_entry(b: &mut [u8], at: usize, w: Write)
    requires { at + entry_size ≤ length b.old }
    ensures { b.new ≡ sets b.old at (entry w) }
{
    put_bytes(b, at, [w.space, w.lanes, 0, 0]);
    put_word(b, at + 4, w.address);
    put_word(b, at + 8, w.data);
}
