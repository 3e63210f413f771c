// An index whose table of contents is right: its rows, and the bodies of their lists.
ghost use Rattle.std.specs.Prelude.{◌≡◌, ◌<◌};
ghost use Rattle.meaning.specs.Day.{tags};
ghost use Rattle.contents.specs.Parts.{Placed, row_body};
ghost use Rattle.contents.specs.OneProof.{placed_prop};

use crate::rows::{Row, body_at, tags_of};

// An index of which every row and every list lies within it, as refusals 1 to 4 leave it.
#[derive(Clone, Copy)]
pub struct Contents<'a> {
    pub index: &'a [u8],
    pub ghost placed: { Placed index.now } by { placed_prop index.now },
}

impl<'a> Contents<'a> {
    // How many rows it has.
    pub fn tags(self) -> usize
        ensures { result ≡ tags self.entry.index.now }
    {
        tags_of(self.index)
    }

    // Its row r.
    pub fn row(self, r: usize) -> Row<'a>
        requires { r < tags self.index.now }
        ensures index { result.index ≡ self.entry.index }
        ensures number { result.number ≡ r }
    {
        Row {
            index: self.index,
            number: r,
        }
    }

    // The body of row r, as a part of the index.
    pub fn body(self, r: usize) -> &'a [u8]
        requires { r < tags self.index.now }
        ensures { result.now ≡ row_body self.entry.index.now r }
    {
        body_at(self.index, self.row(r).list())
    }
}
