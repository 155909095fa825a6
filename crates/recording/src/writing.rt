// Starting a trace in a buffer, appending to it, and extending it.
ghost use Rattle.std.specs.Prelude.{◌≡◌, true, ◌+◌, ◌≤◌, ◌<◌, length, OnErr};
ghost use Rattle.rules.specs.Numbers.{told};
ghost use Rattle.format.specs.Bytes.{word};
ghost use Rattle.format.specs.Recording.{length_told, start_number, start_length, started, one_more_number, one_more_length, holds_trace, append_number, append_length, appended, holds_header, extend_number, extend_length, grown, one_more_buffer, extended};
ghost use Rattle.format.specs.Traces.{header_size, entry_size, largest};

use crate::storing::{put_entry, put_header};
use bounds::{bad_length, bad_space};
use card::Write;
use checking::{fits_header, is_trace};
use entries::word_at;
use format::{ENTRY, HEADER, LARGEST};
use rules::Refusal;

// Whether a trace can start in a buffer of `size` bytes.
#[tactic(auto, unfolding(format::specs::Recording::start_number))]
fn can_start(size: usize, vram: u32) -> Result<(), Refusal>
    ensures { told result ≡ start_number size vram }
{
    if bad_length(vram as usize) {
        return Err(Refusal::Length);
    }
    if size < HEADER {
        return Err(Refusal::NoRoom);
    }
    Ok(())
}

// A trace of no writes for a VRAM of `vram` bytes, in the buffer's first bytes: the length of it.
#[tactic(auto, using(format::proofs::Growing::stored_header), unfolding(format::specs::Recording::start_number, format::specs::Recording::start_length, format::specs::Recording::started))]
pub fn start(buffer: &mut [u8], vram: u32) -> Result<usize, Refusal>
    ensures number { told result ≡ start_number (length buffer.old) vram }
    ensures lengths { length_told result ≡ start_length (length buffer.old) vram }
    ensures leaves { buffer.new ≡ started buffer.old vram }
    ensures refused { OnErr result (buffer.new ≡ buffer.old) }
{
    can_start(buffer.len(), vram)?;
    put_header(buffer, 0, vram);
    Ok(HEADER)
}

// ---- One write more.

// The first `used` bytes are there, and a trace. One function for this test and the next would be longer than both.
#[tactic(auto, unfolding(format::specs::Recording::holds_trace))]
fn holds_trace(buffer: &[u8], used: usize) -> bool
    ensures { result ≡ holds_trace buffer.now used }
{
    used <= buffer.len() && is_trace(&buffer[..used])
}

// The first `used` bytes are there, and as many as their header says.
#[tactic(auto, unfolding(format::specs::Recording::holds_header))]
fn holds_header(buffer: &[u8], used: usize) -> bool
    ensures { result ≡ holds_header buffer.now used }
{
    used <= buffer.len() && fits_header(&buffer[..used])
}

// Whether one write more can follow the first `used` bytes.
#[tactic(auto, unfolding(format::specs::Recording::one_more_number, format::specs::Bytes::word_at))]
fn can_grow(buffer: &[u8], used: usize, w: Write) -> Result<(), Refusal>
    requires { used ≤ length buffer.now }
    ensures { told result ≡ one_more_number true buffer.now used w }
{
    if bad_space(w) {
        return Err(Refusal::Space);
    }
    if buffer.len() - used < ENTRY || word_at(buffer, 0) as usize == LARGEST {
        return Err(Refusal::NoRoom);
    }
    Ok(())
}

// The write's entry stored after the first `used` bytes, and counted in the header.
fn grow(buffer: &mut [u8], used: usize, w: Write)
    requires { (header_size ≤ used) × (used + entry_size ≤ length buffer.old) × (word buffer.old 0 < largest) }
    ensures { buffer.new ≡ grown buffer.old used w }
{
    let count = word_at(buffer, 0);
    let vram = word_at(buffer, 8);
    put_header(buffer, count + 1, vram);
    put_entry(buffer, used, w);
}

// One write more after the first `used` bytes: the new length.
#[tactic(auto, unfolding(format::specs::Recording::one_more_number, format::specs::Recording::one_more_length, format::specs::Recording::one_more_buffer, format::specs::Recording::holds_header))]
fn one_more(buffer: &mut [u8], used: usize, w: Write) -> Result<usize, Refusal>
    requires { holds_header buffer.old used ≡ true }
    ensures number { told result ≡ one_more_number true buffer.old used w }
    ensures lengths { length_told result ≡ one_more_length true buffer.old used w }
    ensures leaves { buffer.new ≡ one_more_buffer true buffer.old used w }
    ensures refused { OnErr result (buffer.new ≡ buffer.old) }
{
    can_grow(buffer, used, w)?;
    grow(buffer, used, w);
    Ok(used + ENTRY)
}

// One write more in the trace of the buffer's first `used` bytes: the new length. The buffer and the length come apart, as C lends them.
#[tactic(auto, using(format::proofs::Growing::appending), unfolding(format::specs::Recording::one_more_number, format::specs::Recording::one_more_length, format::specs::Recording::appended, format::specs::Recording::holds_trace, format::specs::Recording::holds_header, format::specs::Traces::is_trace_up_to))]
pub fn append(buffer: &mut [u8], used: usize, w: Write) -> Result<usize, Refusal>
    ensures number { told result ≡ append_number buffer.old used w }
    ensures lengths { length_told result ≡ append_length buffer.old used w }
    ensures leaves { buffer.new ≡ appended buffer.old used w }
    ensures refused { OnErr result (buffer.new ≡ buffer.old) }
{
    if !holds_trace(buffer, used) {
        return Err(Refusal::Malformed);
    }
    one_more(buffer, used, w)
}

// The same for what is known for a trace: the header alone is judged, so that it takes no longer where the trace is long.
#[tactic(auto, unfolding(format::specs::Recording::one_more_number, format::specs::Recording::one_more_length, format::specs::Recording::one_more_buffer))]
pub fn extend(buffer: &mut [u8], used: usize, w: Write) -> Result<usize, Refusal>
    ensures number { told result ≡ extend_number buffer.old used w }
    ensures lengths { length_told result ≡ extend_length buffer.old used w }
    ensures leaves { buffer.new ≡ extended buffer.old used w }
    ensures refused { OnErr result (buffer.new ≡ buffer.old) }
{
    if !holds_header(buffer, used) {
        return Err(Refusal::Malformed);
    }
    one_more(buffer, used, w)
}
