// What a C program needs, but for a run (crate `host_run`) and a trace that arrives in chunks (crate `host_serial`): the card stands in its memory, and
// each entry that changes it lends it to the write, which changes it there; what it reads; and traces are made in its buffer. include/zevkholtai.h declares the
// functions of all three crates.
// What the entries on a card mean stands in the crates `card` (reset, a register read) and `answers`, read-back in `readback`, a composite in `raster`, what those
// on a buffer mean in specs/Buffers.antt.
#![tactic(auto)]

ghost use Rattle.std.specs.Prelude.{◌≡◌, ◌<◌, ◌^◌};
ghost use Rattle.raster.specs.Pixel.{composite};
ghost use Rattle.card.specs.Access.{reading};
ghost use Rattle.card.specs.Reset.{reset_card};
ghost use Rattle.rules.specs.Numbers.{told};
ghost use Rattle.format.specs.Recording.{length_told};
ghost use Rattle.format.specs.Traces.{check_number, check_length};
ghost use Rattle.readback.specs.ReadBack.{back_number};
ghost use Rattle.answers.specs.Answers.{write_of, Wrote};
ghost use Rattle.host.specs.Buffers.{Began, Grew, Extended, Looked};

use answers::Answer;
use card::{Card, Reading, Write};
use rules::Refusal;

// What starting, appending, extending and checking answer: the number, and a length in bytes. C takes both in every case, and no `Result`.
#[repr(C)]
#[derive(Clone, Copy)]
pub struct Checked {
    pub number: u32,
    pub length: u32,
}

impl Checked {
    // A length, or the number of a refusal with length 0. No `From`, which could not ask that the length fits 32 bits.
    fn from_result(length: Result<usize, Refusal>) -> Checked
        requires { length_told length < 2 ^ 32 }
        ensures { (result.number ≡ told length) × (result.length ≡ length_told length) }
    {
        match length {
            Ok(n) => Checked {
                number: 0,
                length: n as u32,
            },
            Err(refusal) => Checked {
                number: u32::from(refusal),
                length: 0,
            },
        }
    }
}

// A write as C hands it over.
fn write_of(space: u8, lanes: u8, address: u32, word: u32) -> Write
    ensures { result ≡ write_of space lanes address word }
{
    Write {
        space,
        lanes,
        address,
        data: word,
    }
}

// ---- One card, changed in place.

// The card at reset, with the planes `held`.
#[unsafe(no_mangle)]
pub extern "C" fn zevkholtai_reset(card: &mut Card, held: u8)
    ensures { card.new ≡ reset_card held }
{
    *card = Card::reset(held);
}

// One write. A refused one answers its number with count 0, and leaves the card and every byte of VRAM.
#[unsafe(no_mangle)]
pub extern "C" fn zevkholtai_write(
    card: &mut Card,
    space: u8,
    lanes: u8,
    address: u32,
    word: u32,
    vram: &mut [u8],
) -> Answer
    ensures { Wrote card.old (write_of space lanes address word) vram.old result card.new vram.new }
{
    let w = write_of(space, lanes, address, word);
    answers::write_on(card, w, vram)
}

// ---- What is read. None of these can change anything: C hands a card over by value.

// A register read: number 0 with the value, or 4 with 0. A match, since a `From` for `Reading` could stand in neither crate.
#[unsafe(no_mangle)]
pub extern "C" fn zevkholtai_read(card: Card, offset: u32) -> Reading
    ensures { result ≡ reading card offset }
{
    match access::read(&card, offset) {
        Ok(value) => Reading { number: 0, value },
        Err(refusal) => Reading {
            number: u32::from(refusal),
            value: 0,
        },
    }
}

// The number of a read-back of n pixels, out of a VRAM of that length; C takes the part itself.
#[unsafe(no_mangle)]
pub extern "C" fn zevkholtai_read_back(length: usize, address: u32, n: u32) -> u32
    ensures { result ≡ back_number length address n }
{
    readback::number(length, address, n)
        .err()
        .map_or(0, u32::from)
}

// The operation that does at once what a and then b do.
#[unsafe(no_mangle)]
pub extern "C" fn zevkholtai_compose(a: u8, b: u8) -> u8
    ensures { result ≡ composite a b }
{
    composing::compose(a, b)
}

// ---- Traces in a buffer.

// A trace of no writes for a VRAM of `vram` bytes.
#[unsafe(no_mangle)]
#[tactic(auto, using(crate::proofs::Lengths::start_fits))]
pub extern "C" fn zevkholtai_start(buffer: &mut [u8], vram: u32) -> Checked
    ensures { Began buffer.old vram result buffer.new }
{
    Checked::from_result(recording::start(buffer, vram))
}

// One write more in the trace of the buffer's first `used` bytes.
#[unsafe(no_mangle)]
#[tactic(auto, using(crate::proofs::Lengths::append_fits))]
pub extern "C" fn zevkholtai_append(
    buffer: &mut [u8],
    used: usize,
    space: u8,
    lanes: u8,
    address: u32,
    word: u32,
) -> Checked
    ensures { Grew buffer.old used (write_of space lanes address word) result buffer.new }
{
    let w = write_of(space, lanes, address, word);
    Checked::from_result(recording::append(buffer, used, w))
}

// The same for what is known for a trace: it takes no longer where the trace is long.
#[unsafe(no_mangle)]
#[tactic(auto, using(crate::proofs::Lengths::extend_fits))]
pub extern "C" fn zevkholtai_extend(
    buffer: &mut [u8],
    used: usize,
    space: u8,
    lanes: u8,
    address: u32,
    word: u32,
) -> Checked
    ensures { Extended buffer.old used (write_of space lanes address word) result buffer.new }
{
    let w = write_of(space, lanes, address, word);
    Checked::from_result(recording::extend(buffer, used, w))
}

// The length of VRAM that a trace is for.
#[tactic(auto, unfolding(format::specs::Traces::check_number_up_to, format::specs::Traces::check_length_up_to))]
fn vram_length(bytes: &[u8]) -> Result<usize, Refusal>
    ensures number { told result ≡ check_number bytes.now }
    ensures lengths { length_told result ≡ check_length bytes.now }
    ensures within { length_told result < 2 ^ 32 }
{
    Ok(checking::check(bytes)?.vram as usize)
}

// Whether the bytes are a trace, and the length of VRAM that it is for.
#[unsafe(no_mangle)]
#[tactic(auto, using(crate::proofs::Lengths::entries_at_16))]
pub extern "C" fn zevkholtai_check(bytes: &[u8]) -> Checked
    ensures { Looked bytes.now result }
{
    Checked::from_result(vram_length(bytes))
}
