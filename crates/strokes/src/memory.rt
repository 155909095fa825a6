// Words of eight pixels, from memory and to it. A part and a place, and no array of eight bytes: every caller would have to cut and convert it.
ghost use Rattle.std.specs.Prelude.{◌≡◌, [], ◌∷◌, ◌+◌, ◌≤◌, length, get_or};
ghost use Rattle.std.proofs.lemmas.List.Edits.{sets};
ghost use Rattle.span.specs.Fragments.{byte, listed};
ghost use Rattle.words.specs.Words.{joined};

// The eight bytes from `at` on, the first the lowest of the word. The compiler makes it one load.
pub(crate) fn load(p: &[u8], at: usize) -> u64
    requires { at + 8 ≤ length p.now }
    ensures { result ≡ joined (listed 8 (λ k. get_or p.now (at + k) 0)) }
{
    let bytes = <[u8; 8]>::try_from(&p[at..at + 8]).unwrap();
    u64::from_le_bytes(bytes)
}

// The eight bytes of a word, from `at` on. The compiler makes it one store.
pub(crate) fn store(p: &mut [u8], at: usize, w: u64)
    requires { at + 8 ≤ length p.old }
    ensures { p.new ≡ sets p.old at (listed 8 (byte w)) }
{
    p[at..at + 8].copy_from_slice(&w.to_le_bytes());
}
