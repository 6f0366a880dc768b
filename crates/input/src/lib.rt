// What a program is given: the bytes of files, put into a lent buffer, and its arguments.
#![tactic(auto)]

ghost use Rattle.std.specs.Prelude.{◌<◌, ◌≤◌, length, take, IfOk};
ghost use Rattle.std.specs.Io.KnownBytes.{Consumes, IsAtEnd};

use std::env::{Env, FillError};
use std::io::{ErrorKind, Read};
use std::rt::Files;
use std::{fs, io, str};

// The most bytes of an argument and of a file's name, and one.
pub const NAME_ROOM: usize = 4096;

// Opens a file for reading. A name that is no text, in UTF-8, opens none.
pub fn open<R: Files>(rt: &R, name: &[u8]) -> io::Result<R::File> {
    match str::from_utf8(name) {
        Ok(text) => fs::open(rt, text),
        Err(_) => Err(io::Error::from(ErrorKind::InvalidInput)),
    }
}

// Reads until the buffer is full or the file ends, and answers how many bytes lie at its front. An error is the reader's; what was read before it
// lies in the buffer.
pub fn fill<R: Read>(reader: &mut R, buffer: &mut [u8]) -> io::Result<usize>
    ensures within { IfOk result (λ n. n ≤ length buffer.old) }
    ensures bytes { IfOk result (λ n. Consumes (R.remaining reader.old) (R.remaining reader.new) (take n buffer.new)) }
    ensures end { IfOk result (λ n. n < length buffer.old → IsAtEnd (R.remaining reader.new)) }
{
    let mut size: usize = 0;
    while size < buffer.len() {
        let more = reader.read(&mut buffer[size..])?;
        if more == 0 {
            break;
        }
        size += more;
    }
    Ok(size)
}

// How many arguments the program was started with, its own name among them.
pub fn argument_count(rt: &impl Env) -> usize {
    let mut name = [0u8; NAME_ROOM];
    for i in 0..usize::MAX {
        if let Err(FillError::NotPresent) = rt.arg(i, &mut name) {
            return i;
        }
    }
    usize::MAX
}

// Puts an argument at the front of a buffer, and answers its length: 0 where it is missing or longer than the buffer.
pub fn argument(rt: &impl Env, i: usize, buffer: &mut [u8]) -> usize
    ensures { result ≤ length buffer.old }
{
    match rt.arg(i, buffer) {
        Ok(n) => n,
        Err(_) => 0,
    }
}
