// Reading the two files.
ghost use Rattle.std.specs.Prelude.{◌≤◌, length, IfOk};

use crate::error::Error;
use std::io::Read;
use std::rt::Files;
use std::{fs, io};

// Reads until the buffer is full or the file ends, and tells how many bytes it put at the buffer's beginning. Bytes may arrive in pieces; a
// folder can be opened, and its first read fails.
// (a) A loop over `read`: what std has to read up to a file's end, `read_to_end`, allocates, and memory is fixed here.
fn fill(open: &mut impl Read, buffer: &mut [u8]) -> io::Result<usize>
    ensures { IfOk result (λ n. n ≤ length buffer.new) }
{
    let mut done = 0;
    while done < buffer.len() {
        let part = &mut buffer[done..];
        let n = open.read(part)?;
        if n == 0 {
            break;
        }
        done += n;
    }
    Ok(done)
}

// Reads the beginning of the file, as much of it as the buffer holds. Nothing is said of which bytes these are, since no contract can say what a
// file holds.
fn read_file<'a>(rt: &impl Files, path: &str, buffer: &'a mut [u8]) -> io::Result<&'a [u8]>
    ensures { IfOk result (λ part. length part.now ≤ length buffer.old) }
{
    let mut open = fs::open(rt, path)?;
    let n = fill(&mut open, buffer)?;
    Ok(&buffer[..n])
}

// The day's index and the question's text, as they stand in the two files.
#[derive(Clone, Copy)]
pub struct Input<'a> {
    pub index: &'a [u8],
    pub text: &'a [u8],
}

impl<'a> Input<'a> {
    // Most bytes of a `day.idx` that is read.
    pub const MOST_INDEX_BYTES: usize = 65_536;

    // Reads both, each into the buffer that is lent for it. A day that is read is not too long.
    pub fn read(
        rt: &impl Files,
        index: &'a mut [u8],
        text: &'a mut [u8],
    ) -> Result<Input<'a>, Error>
        ensures index { IfOk result (λ input. length input.index.now ≤ 65536) }
        ensures text { IfOk result (λ input. length input.text.now ≤ length text.old) }
    {
        let index = read_file(rt, "day.idx", index).map_err(|_| Error::Unreadable)?;
        let text = read_file(rt, "query.txt", text).map_err(|_| Error::Unreadable)?;
        if Input::MOST_INDEX_BYTES < index.len() {
            return Err(Error::Unreadable);
        }
        Ok(Input { index, text })
    }
}
