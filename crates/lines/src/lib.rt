// The line that the program prints for a row of evidence.
#![tactic(auto)]

ghost use Rattle.std.specs.Prelude.{ℕ, ◌+◌, ◌*◌, ◌%◌, ◌≤◌, ◌<◌, ◌≡◌, [], ◌∷◌, ◌++◌, length};
ghost use Rattle.meaning.specs.Limits.{most_steps};
ghost use Rattle.meaning.specs.Day.{label_at};
ghost use Rattle.meaning.specs.Bytes.{at};
ghost use Rattle.meaning.specs.Printing.{digits};
ghost use Rattle.lines.specs.Adding.{most_digits, most_record, most_line, Places, AddsNumber, AddsRecord, Written};

use meaning::{Label, Step};
use std::marker::Model;

// A line's text: what was written of it so far. For its callers it is the list of these bytes, and it is copied like a number: the bytes behind
// them are 0 in every line, so that the list tells all of it.
// (a) It is written by hand, and not by `write!`: by its contract a `write!` may fail, also into std's text of fixed memory, and a line is
// promised whole.
#[derive(Clone, Copy)]
pub struct Line {
    bytes: [u8; Line::MOST_BYTES],
    used: usize,
}

impl Model for Line {
    ghost use Rattle.std.specs.Prelude.{ℕ, List, take, length};

    ghost Value = { List ℕ };

    ghost use Rattle.lines.specs.declared.TheConstants.Line.{MOST_BYTES};
    ghost use Rattle.lines.specs.Memory.{Holds, memory, memory_back, used_back};

    ghost view = { λ l. take l.used l.bytes };

    ghost invariant = { λ l. Holds MOST_BYTES l.used l.bytes };

    ghost inverse = { λ line. record { bytes = memory MOST_BYTES line; used = length line } };

    ghost inverse_ok = { λ l h i. record { bytes = memory_back h i; used = used_back h i } };
}

// How many decimal digits a number has: one more than its logarithm, and 0 has one. A logarithm is at most 9, so `as` loses nothing; there is
// no `usize::from` of a u32.
fn places(n: u32) -> usize
    ensures { Places n result }
{
    1 + n.checked_ilog10().unwrap_or(0) as usize
}

// The last decimal digit of a number as a character. It is below 10, so `as` loses nothing: `try_from` would make a failure that can't be.
fn digit(n: u32) -> u8
    ensures { result ≡ 48 + n % 10 }
{
    b'0' + (n % 10) as u8
}

// Fills the bytes with the last decimal digits of a number, from the last to the first. (c) By place, and not `bytes.iter_mut().rev()`: behind a
// loop over an adapter of `iter_mut` a proof knows the slice's length and none of its elements (Rattle's docs/NOT_COVERED.md).
fn put_digits(bytes: &mut [u8], n: u32)
    ensures { bytes.new ≡ digits (length bytes.old) n }
{
    let mut rest = n;
    for place in (0..bytes.len()).rev() {
        bytes[place] = digit(rest);
        rest /= 10;
    }
}

impl Line {
    // Most digits of a number of a label.
    pub const MOST_DIGITS: usize = 10;

    // Most bytes of a line: for each step two numbers, a colon, and a blank or the line feed.
    pub const MOST_BYTES: usize = Step::MOST * (2 * Line::MOST_DIGITS + 2);

    // A line of which nothing is written yet.
    fn new() -> Line
        ensures { result ≡ [] }
    {
        Line {
            bytes: [0; Line::MOST_BYTES],
            used: 0,
        }
    }

    // What is written.
    pub fn as_bytes(&self) -> &[u8]
        ensures { result.now ≡ self.now }
    {
        &self.bytes[..self.used]
    }

    // Writes one byte more.
    fn push(&mut self, byte: u8)
        requires { length self.old < most_line }
        ensures { self.new ≡ self.old ++ byte ∷ [] }
    {
        self.bytes[self.used] = byte;
        self.used += 1;
    }

    // Writes a number.
    fn push_number(&mut self, n: u32)
        requires { length self.old + most_digits ≤ most_line }
        ensures { AddsNumber n self.old self.new }
    {
        let end = self.used + places(n);
        put_digits(&mut self.bytes[self.used..end], n);
        self.used = end;
    }

    // Writes a record: its start, a colon, its end.
    fn push_record(&mut self, label: Label)
        requires { length self.old + most_record ≤ most_line }
        ensures { AddsRecord label self.old self.new }
    {
        self.push_number(label.start);
        self.push(b':');
        self.push_number(label.end);
    }

    // The line of the row of list positions that stands in `rows` from `from` on, one for each of the offsets, which say where each step's body
    // begins.
    pub fn of_row(index: &[u8], offsets: &[usize], rows: &[u32], from: usize) -> Line
        requires some { 1 ≤ length offsets.now }
        requires few { length offsets.now ≤ most_steps }
        requires ended { from + length offsets.now ≤ length rows.now }
        requires labels { (s : ℕ) → s < length offsets.now → at offsets.now s + 8 * at rows.now (from + s) + 8 ≤ length index.now }
        ensures { Written (λ s. label_at index.now (at offsets.now s) (at rows.now (from + s))) (length offsets.now) result }
    {
        let row = &rows[from..from + offsets.len()];
        let mut line = Line::new();
        for (s, (offset, i)) in offsets.iter().zip(row).enumerate() {
            let behind = 0 < s;
            if behind {
                line.push(b' ');
            }
            // No `usize::from` of a u32 is there, and `as` loses nothing.
            line.push_record(label::label_at(index, *offset, *i as usize));
        }
        line.push(b'\n');
        line
    }
}
