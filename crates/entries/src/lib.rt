// Words and entries of a trace, read from its bytes. What they mean stands in the crate `format`.
#![tactic(auto)]

ghost use Rattle.std.specs.Prelude.{◌≡◌, ◌+◌, ◌*◌, ◌^◌, ◌≤◌, length};
ghost use Rattle.format.specs.Bytes.{word, word_at};
ghost use Rattle.format.specs.Traces.{entry_size, write_at, entry_at};

use card::Write;
use format::ENTRY;

// ---- Little-endian 32-bit numbers.

// The number whose first byte stands at `at`, inside the slice.
#[tactic(auto, unfolding(format::specs::Bytes::word))]
fn word_inside(b: &[u8], at: usize) -> u32
    requires { at + 4 ≤ length b.now }
    ensures { result ≡ word b.now at }
{
    u32::from_le_bytes([b[at], b[at + 1], b[at + 2], b[at + 3]])
}

// The number whose first byte stands at `at`; 0 where four bytes do not stand there, as `Bytes.word_at` has it.
#[tactic(auto, unfolding(format::specs::Bytes::word_at))]
pub fn word_at(b: &[u8], at: usize) -> u32
    ensures { result ≡ word_at b.now at }
{
    if b.len() < 4 || b.len() - 4 < at {
        return 0;
    }
    word_inside(b, at)
}

// ---- Entries of 12 bytes: space, lanes, two zero bytes, address, data.

// The write of the entry that starts at `at`, inside the part.
#[tactic(auto, unfolding(format::specs::Traces::write_at))]
fn write_at(part: &[u8], at: usize) -> Write
    requires { at + entry_size ≤ length part.now }
    ensures { result ≡ write_at part.now at }
{
    Write {
        space: part[at],
        lanes: part[at + 1],
        address: word_inside(part, at + 4),
        data: word_inside(part, at + 8),
    }
}

// The write of the entry that starts at `at`; four zeros where no whole entry starts there, as `Traces.entry_at` has it.
#[tactic(auto, unfolding(format::specs::Traces::entry_at))]
pub fn entry_at(part: &[u8], at: usize) -> Write
    ensures { result ≡ entry_at part.now at }
{
    if part.len() < ENTRY || part.len() - ENTRY < at {
        return Write {
            space: 0,
            lanes: 0,
            address: 0,
            data: 0,
        };
    }
    write_at(part, at)
}
