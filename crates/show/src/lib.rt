// A picture written as a binary PGM.
#![tactic(auto)]

ghost use Rattle.std.specs.Prelude.{◌≡◌, IsErr};

use std::io::{ErrorKind, Write};
use std::rt::Files;
use std::{fs, io};

// The header and the pixels, into the file of that name, made or emptied. A name that is no text names no file that std can make.
fn put<R: Files>(rt: &R, path: &[u8], pixels: &[u8], width: usize) -> io::Result<()>
    requires { width ≡ 0 → ⊥ }
{
    let name = str::from_utf8(path).map_err(|_| io::Error::from(ErrorKind::InvalidFilename))?;
    let mut file = fs::create(rt, name)?;
    let height = pixels.len() / width;
    write!(file, "P5\n{width} {height}\n255\n")?;
    file.write_all(pixels)
}

// Says on standard error what became of the file; where that cannot be written, nobody is told.
fn complain(rt: &impl Eprint, path: &[u8], error: &io::Error) {
    let _ = match str::from_utf8(path) {
        Ok(name) => eprintln!(rt; "{name}: {error}"),
        Err(_) => eprintln!(rt; "{}: {error}", path.escape_ascii()),
    };
}

// The picture as a binary PGM, `width` columns wide. An error at a width of 0, or where it could not be written, which standard error tells then;
// no contract can say what is written to a file.
pub fn picture<R: Files + Eprint>(
    rt: &R,
    path: &[u8],
    pixels: &[u8],
    width: usize,
) -> io::Result<()>
    ensures { width ≡ 0 → IsErr result }
{
    if width == 0 {
        return Err(io::Error::from(ErrorKind::InvalidInput));
    }
    put(rt, path, pixels, width).inspect_err(|error| complain(rt, path, error))
}
