// The table of contents of an index: its head, its rows, and the bodies of their lists. A number of 32 bits is made a usize by a cast, since there is
// no `From` for the two.
ghost use Rattle.std.specs.Prelude.{◌≡◌, ◌+◌, ◌*◌, ◌<◌, ◌≤◌, length};
ghost use Rattle.meaning.specs.Limits.{most_name};
ghost use Rattle.meaning.specs.Day.{tags, version, name_field, offset, count, row_at, row_list};
ghost use Rattle.contents.specs.Parts.{InIndex, bytes_of};

use meaning::{Body, Index, Label, Name};

// T, the number of tags.
pub fn tags_of(index: &[u8]) -> usize
    requires { 4 ≤ length index.now }
    ensures value { result ≡ tags index.now }
    ensures most { result < 65536 }
{
    label::u16_at(index, 0) as usize
}

pub fn version_of(index: &[u8]) -> u32
    requires { 4 ≤ length index.now }
    ensures { result ≡ version index.now }
{
    label::u16_at(index, 2)
}

// A row of an index that holds the whole of it.
#[derive(Clone, Copy)]
pub struct Row<'a> {
    pub index: &'a [u8],
    pub number: usize,
    pub ghost within: { row_at number + 24 ≤ length index.now },
}

impl<'a> Row<'a> {
    // Where the row begins.
    fn place(self) -> usize
        ensures { result ≡ row_at self.entry.number }
    {
        Index::HEAD_BYTES + Index::ROW_BYTES * self.number
    }

    // Its name, as a part of the index.
    pub fn name_field(self) -> &'a [u8]
        ensures value { result.now ≡ name_field self.entry.index.now self.entry.number }
        ensures long { length result.now ≡ most_name }
    {
        let at = self.place();
        &self.index[at..at + Name::MOST_BYTES]
    }

    // Where its body begins.
    pub fn offset(self) -> usize
        ensures value { result ≡ offset self.entry.index.now self.entry.number }
        ensures most { result < 4294967296 }
    {
        label::u32_at(self.index, self.place() + Index::OFFSET_AT) as usize
    }

    // How many labels it has.
    pub fn count(self) -> usize
        ensures value { result ≡ count self.entry.index.now self.entry.number }
        ensures most { result < 4294967296 }
    {
        label::u32_at(self.index, self.place() + Index::COUNT_AT) as usize
    }

    // Where its body ends.
    pub fn end(self) -> usize
        ensures { result ≡ offset self.entry.index.now self.entry.number + 8 * count self.entry.index.now self.entry.number }
    {
        self.offset() + Label::BYTES * self.count()
    }

    // Its list: where its body begins, and its number of labels.
    pub fn list(self) -> Body
        ensures { result ≡ row_list self.entry.index.now self.entry.number }
    {
        Body {
            offset: self.offset(),
            count: self.count(),
        }
    }
}

// The body of a list that lies within the index, as a part of the index itself.
pub fn body_at(index: &[u8], list: Body) -> &[u8]
    requires { InIndex index.now list }
    ensures { result.now ≡ bytes_of index.now list }
{
    let from = list.offset;
    let to = from + Label::BYTES * list.count;
    &index[from..to]
}
