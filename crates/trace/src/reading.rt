// The part of a trace's entries that is left unread.
ghost use Rattle.std.specs.Prelude.{◌≡◌};
ghost use Rattle.trace.specs.Run.{unread as unread_part};

use format::ENTRY;

// The part after so many entries: after those that a run applied, what it left unread.
#[tactic(auto, unfolding(crate::specs::Run::unread))]
pub fn unread(part: &[u8], applied: u32) -> &[u8]
    ensures { result.now ≡ unread_part part.now applied }
{
    let at = ENTRY * applied as usize;
    part.get(at..).unwrap_or(&[])
}
