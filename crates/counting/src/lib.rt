// Bytes counted, for the programs.
#![tactic(auto)]

ghost use Rattle.std.specs.Prelude.{◌≡◌, not, ◌≤◌, min, eqb, leb, length, get_or};
ghost use Rattle.span.specs.Fragments.{counted};

// How many bytes of the two, place by place, are not the same.
pub fn differing(a: &[u8], b: &[u8]) -> usize
    ensures { result ≡ counted (min (length a.now) (length b.now)) (λ i. not (eqb (get_or a.now i 0) (get_or b.now i 0))) }
{
    let mut n: usize = 0;
    for i in 0..a.len().min(b.len()) {
        n += (a[i] != b[i]) as usize;
    }
    n
}

// How many bytes are at least `least`.
pub fn at_least(a: &[u8], least: u8) -> usize
    ensures { result ≡ counted (length a.now) (λ i. leb least (get_or a.now i 0)) }
{
    let mut n: usize = 0;
    for i in 0..a.len() {
        n += (least <= a[i]) as usize;
    }
    n
}
