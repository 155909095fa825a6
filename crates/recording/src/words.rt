// Little-endian 32-bit numbers stored in a slice of bytes.
ghost use Rattle.std.specs.Prelude.{◌≡◌, ◌+◌, ◌≤◌, length};
ghost use Rattle.std.proofs.lemmas.List.Edits.{sets};
ghost use Rattle.format.specs.Bytes.{bytes};

// Four bytes stored from `at` on: a slice and a place, as the laws of `sets` have them.
pub(crate) fn put_bytes(b: &mut [u8], at: usize, four: [u8; 4])
    requires { at + 4 ≤ length b.old }
    ensures { b.new ≡ sets b.old at four }
{
    b[at..at + 4].copy_from_slice(&four);
}

// The bytes of a number stored from `at` on.
#[tactic(auto, using(crate::proofs::Stores::made_bytes))]
pub(crate) fn put_word(b: &mut [u8], at: usize, x: u32)
    requires { at + 4 ≤ length b.old }
    ensures { b.new ≡ sets b.old at (bytes x) }
{
    put_bytes(b, at, x.to_le_bytes());
}
