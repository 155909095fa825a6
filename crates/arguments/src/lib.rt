// A program's arguments, as bytes.
#![tactic(auto)]

ghost use Rattle.std.specs.Prelude.{◌≤◌, length, IfSome};

use std::env::FillError;
use std::rt::Env;

// Argument i, put at the front of the buffer. None where there is none; empty where it is longer than the buffer.
pub fn argument<'a>(rt: &impl Env, i: usize, buffer: &'a mut [u8]) -> Option<&'a [u8]>
    ensures { IfSome result (λ text. length text.now ≤ length buffer.old) }
{
    match rt.arg(i, buffer) {
        Ok(n) => Some(&buffer[..n]),
        Err(FillError::TooLong) => Some(&[]),
        Err(FillError::NotPresent) => None,
    }
}
