// Whether bytes are a trace, and a part of them its entries. What that means stands in the crate `format`.
#![tactic(auto)]

ghost use Rattle.std.specs.Prelude.{◌≡◌, [], IfOk, OnErr};
ghost use Rattle.rules.specs.Numbers.{told};
ghost use Rattle.format.specs.Traces.{well_formed, good_header, fits_header, is_trace, check_number, check_length, check_part};

use bounds::bad_length;
use entries::word_at;
use format::{ENTRY, HEADER, LARGEST, OFFSET};
use rules::Refusal;

// A trace: its entries, as a part of its bytes, and the length of the VRAM that it is for.
#[derive(Clone, Copy)]
pub struct Trace<'a> {
    pub entries: &'a [u8],
    pub vram: u32,
}

// The part is whole entries, not too many, with every pad byte zero. A chain over `chunks_exact` takes longer than the loop.
#[tactic(auto, unfolding(format::specs::Traces::well_formed_up_to, format::specs::Traces::padded_at))]
pub fn well_formed(part: &[u8]) -> bool
    ensures { result ≡ well_formed part.now }
{
    let count = part.len() / ENTRY;
    if part.len() % ENTRY != 0 || count > LARGEST {
        return false;
    }
    for i in 0..count {
        let at = ENTRY * i;
        if part[at + 2] != 0 || part[at + 3] != 0 {
            return false;
        }
    }
    true
}

// The bytes begin with the header of a trace: count of entries, offset of entries, VRAM length, total length.
#[tactic(auto, unfolding(format::specs::Traces::good_header_up_to, format::specs::Bytes::word_at))]
pub fn good_header(b: &[u8]) -> bool
    ensures { result ≡ good_header b.now }
{
    let entries = word_at(b, 0) as usize;
    b.len() >= HEADER
        && entries <= LARGEST
        && word_at(b, 4) == OFFSET
        && !bad_length(word_at(b, 8) as usize)
        && word_at(b, 12) as usize == HEADER + ENTRY * entries
}

// The bytes begin so, and are as many as the header's total says.
#[tactic(auto, unfolding(format::specs::Traces::fits_header_up_to, format::specs::Traces::good_header_up_to, format::specs::Bytes::word_at))]
pub fn fits_header(b: &[u8]) -> bool
    ensures { result ≡ fits_header b.now }
{
    good_header(b) && b.len() == word_at(b, 12) as usize
}

// The bytes are a trace: a header of 16 bytes, then the entries.
#[tactic(auto, unfolding(format::specs::Traces::is_trace_up_to, format::specs::Traces::fits_header_up_to, format::specs::Traces::good_header_up_to))]
pub fn is_trace(b: &[u8]) -> bool
    ensures { result ≡ is_trace b.now }
{
    fits_header(b) && well_formed(&b[HEADER..])
}

// The trace that the bytes are. Of bytes that are refused, the part is empty and the length 0, so an `Err` has neither.
#[tactic(auto, unfolding(format::specs::Traces::check_number_up_to, format::specs::Traces::check_part_up_to, format::specs::Traces::check_length_up_to, format::specs::Traces::is_trace_up_to, format::specs::Traces::fits_header_up_to, format::specs::Traces::good_header_up_to, format::specs::Bytes::word_at))]
pub fn check(bytes: &[u8]) -> Result<Trace<'_>, Refusal>
    ensures number { told result ≡ check_number bytes.now }
    ensures entries { IfOk result (λ t. t.entries.now ≡ check_part bytes.now) }
    ensures vram { IfOk result (λ t. t.vram ≡ check_length bytes.now) }
    ensures refused { OnErr result ((check_part bytes.now ≡ []) × (check_length bytes.now ≡ 0)) }
{
    if !is_trace(bytes) {
        return Err(Refusal::Malformed);
    }
    Ok(Trace {
        entries: &bytes[HEADER..],
        vram: word_at(bytes, 8),
    })
}
