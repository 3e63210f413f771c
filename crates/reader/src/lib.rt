// A reader of one list's body: it keeps the body and its place in it, is made at the first label, and is an iterator over the labels from there
// on. It is thin: what comes next is found by a function on the slice and the number.
#![tactic(auto)]

ghost use Rattle.std.specs.Prelude.{◌≡◌};
ghost use Rattle.std.specs.Iterator.{at_most};
ghost use Rattle.reader.specs.Reading.{labels_left, reader_at, next_at, Gives};

use label::label_at;
use meaning::Label;

#[derive(Clone, Copy)]
pub struct Reader<'a> {
    pub body: &'a [u8],
    // The number of the label that comes next.
    pub at: usize,
}

// Label `at` of a body, or none behind its last.
fn next_at(body: &[u8], at: usize) -> Option<Label>
    ensures { result ≡ next_at body.now at }
{
    if at < body.len() / Label::BYTES {
        Some(label_at(body, 0, at))
    } else {
        None
    }
}

impl<'a> Reader<'a> {
    // A reader of a body, at its first label.
    pub fn new(body: &'a [u8]) -> Reader<'a>
        ensures { result ≡ reader_at body.entry 0 }
    {
        Reader { body, at: 0 }
    }
}

// The labels of the body from the reader's place on.
impl Iterator for Reader<'_> {
    type Item = Label;

    ghost next_gives = { Gives };

    ghost remaining = { λ r. at_most (labels_left r) };

    fn next(&mut self) -> Option<Label> {
        let label = next_at(self.body, self.at)?;
        self.at += 1;
        Some(label)
    }
}
