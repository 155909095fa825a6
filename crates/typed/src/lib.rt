// Numbers as a person types them.
#![tactic(auto)]

ghost use Rattle.std.specs.Prelude.{◌≡◌};
ghost use Rattle.typed.specs.Typed.{decimal_of, hex_of};

// A decimal number below 10,000,000.
#[tactic(auto, using(crate::proofs::Digits::at_end, crate::proofs::Digits::bad_digit, crate::proofs::Digits::too_long, crate::proofs::Digits::one_more), unfolding(crate::specs::Typed::decimal_of))]
pub fn decimal(text: &[u8]) -> Option<u32>
    ensures { result ≡ decimal_of text.now }
{
    if text.is_empty() {
        return None;
    }
    let mut value: u32 = 0;
    for &c in text {
        let digit = char::from(c).to_digit(10)?;
        if 999999 < value {
            return None;
        }
        value = value * 10 + digit;
    }
    Some(value)
}

// A number of exactly two hexadecimal digits.
#[tactic(auto, using(crate::proofs::Digits::is_none, crate::proofs::Digits::is_digit, crate::proofs::Digits::both_digits), unfolding(crate::specs::Typed::hex_of))]
pub fn two_hex_digits(text: &[u8]) -> Option<u8>
    ensures { result ≡ hex_of text.now }
{
    let &[high, low] = text else {
        return None;
    };
    let high = char::from(high).to_digit(16)?;
    let low = char::from(low).to_digit(16)?;
    Some((high * 16 + low) as u8)
}
