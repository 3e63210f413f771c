// A walk: the lists' places in the index, and a tournament of their keys there.
ghost use Rattle.std.specs.Prelude.{◌≡◌, ◌<◌};
ghost use Rattle.meaning.specs.Day.{tags, offset, lists_of};
ghost use Rattle.order.specs.Walk.{Ascend, Comes, Foretells};
ghost use Rattle.order.specs.Standing.{position_at, cursor, Filled, Standing, Begun, HandsOut};
ghost use Rattle.order.specs.Keys.{Key};
ghost use Rattle.order.specs.OneProof.{standing_prop};

use crate::{Met, comes_next, key_at};
use contents::{Contents, Row};
use meaning::{Index, Label};
use tournament::Tournament;

// A walk over all labels of an index. Whoever has places and keys of which `standing` is true has a walk that goes on from there.
#[derive(Drop)]
pub struct Walk<'a> {
    pub index: &'a [u8],
    // The place in the index of each list's next label: of no account for no list, since memory is fixed.
    pub places: [usize; Index::MOST_TAGS],
    // The lists' keys there.
    pub keys: Tournament,
    // What was handed out comes before what is left, and the keys are the lists'.
    pub ghost standing: { Standing index.now places keys } by { standing_prop index.now places keys },
}

// Every list's place is that of its first label.
fn first_places(contents: Contents<'_>, places: &mut [usize; Index::MOST_TAGS])
    ensures { Filled contents.entry.index.now (tags contents.entry.index.now) places.new }
{
    for r in 0..contents.tags() {
        places[r] = contents.row(r).offset();
    }
}

// The key of list r at its first label.
fn first_key(contents: Contents<'_>, r: usize) -> u64
    requires { r < tags contents.index.now }
    ensures { Key (lists_of contents.entry.index.now) r (position_at contents.entry.index.now r (offset contents.entry.index.now r)) result }
{
    let row = contents.row(r);
    key_at(row, row.offset())
}

impl<'a> Walk<'a> {
    // Begins a walk: nothing was handed out.
    pub fn begin(contents: Contents<'a>) -> Walk<'a>
        requires ascend { Ascend (lists_of contents.index.now) }
        ensures index { result.index ≡ contents.entry.index }
        ensures begun { Begun contents.entry.index.now result.places }
    {
        let lists = contents.tags();
        // It is filled where it stands: to move its arrays would be to copy them.
        let mut walk = Walk {
            index: contents.index,
            places: [0; Index::MOST_TAGS],
            keys: Tournament::blank(lists),
        };
        first_places(contents, &mut walk.places);
        walk.keys.fill(|r| first_key(contents, r));
        walk
    }

    // A walk that goes on from the same place, by itself.
    pub fn copy(&self) -> Walk<'a>
        ensures index { result.index ≡ self.now.index }
        ensures places { result.places ≡ self.now.places }
        ensures keys { result.keys ≡ self.now.keys }
    {
        Walk {
            index: self.index,
            places: self.places,
            keys: self.keys.copy(),
        }
    }

    // What comes next.
    pub fn comes_next(&self) -> Option<Met>
        ensures { Foretells (lists_of self.now.index.now) (cursor self.now.index.now self.now.places) result }
    {
        comes_next(
            Contents { index: self.index },
            &self.places,
            self.keys.least(),
        )
    }

    // Hands out the label that comes next, which is list `list`'s, and tells what comes next then. A caller keeps that, so that no turn waits for what
    // the one before it stored.
    pub fn pass(&mut self, list: usize) -> Option<Met>
        requires { Comes (lists_of self.old.index.now) (cursor self.old.index.now self.old.places) list }
        ensures index { self.new.index ≡ self.old.index }
        ensures handed { HandsOut self.old.index.now self.old.places list self.new.places self.new.keys result }
    {
        let place = self.places[list] + Label::BYTES;
        self.places[list] = place;
        let row = Row {
            index: self.index,
            number: list,
        };
        let least = self.keys.put(list, key_at(row, place));
        comes_next(Contents { index: self.index }, &self.places, least)
    }
}
