// Reads that go on until a buffer is full.
ghost use Rattle.std.specs.Prelude.{◌≤◌, length};

use std::io;
use std::io::Read;

// Reads until the buffer is full or the input ends, and answers the bytes that came. A read that fails ends it too, and `failed` hears of it.
// `read_exact` doesn't say how many bytes came before an end or an error.
pub(crate) fn full<'a, I: Read, F: Fn(io::Error)>(
    input: &mut I,
    buffer: &'a mut [u8],
    failed: F,
) -> &'a [u8]
    requires { F.IsAlwaysCallable failed }
    ensures { length result.now ≤ length buffer.old }
{
    let mut came: usize = 0;
    while came < buffer.len() {
        match input.read(&mut buffer[came..]) {
            Ok(0) => break,
            Ok(n) => came += n,
            Err(error) => {
                failed(error);
                break;
            }
        }
    }
    &buffer[..came]
}
