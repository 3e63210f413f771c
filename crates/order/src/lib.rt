// All labels of all lists in order of start: a walk knows what comes next, and hands it out. A copy of a walk is a walk of its own, which goes on
// from the same place.
#![tactic(auto)]

ghost use Rattle.std.specs.Prelude.{◌≡◌, ◌<◌};
ghost use Rattle.meaning.specs.Limits.{most_tags};
ghost use Rattle.meaning.specs.Day.{tags, lists_of};
ghost use Rattle.contents.specs.Parts.{Placed};
ghost use Rattle.order.specs.Keys.{Key};
ghost use Rattle.order.specs.Walk.{Foretells};
ghost use Rattle.order.specs.Standing.{position_at, cursor, AtLabel, Cursors, Names};

mod keys;
mod walk;

use contents::{Contents, Row};
use meaning::{Index, Label};
pub use walk::Walk;

// A label that a walk comes to.
#[derive(Clone, Copy)]
pub struct Met {
    // Its list, and its position there.
    pub list: usize,
    pub at: usize,
    pub start: u32,
    pub end: u32,
}

// What comes next, where these are the places of the lists' next labels and `least` is the least of their keys: the label of least start of those that
// are left, of equal ones that of the lowest list; or that none is left.
pub fn comes_next(
    contents: Contents<'_>,
    places: &[usize; Index::MOST_TAGS],
    least: u64,
) -> Option<Met>
    requires cursors { Cursors contents.index.now places.now }
    requires names { Names (lists_of contents.index.now) (cursor contents.index.now places.now) least }
    ensures { Foretells (lists_of contents.entry.index.now) (cursor contents.entry.index.now places.now) result }
{
    if tournament::PAST <= least {
        return None;
    }
    let list = keys::list_of(least);
    let place = places[list];
    Some(Met {
        list,
        at: (place - contents.row(list).offset()) / Label::BYTES,
        start: keys::start_of(least),
        end: label::end_at(contents.index, place, 0),
    })
}

// The key of a row's list when the label that begins at `place` is next in it; that of a list that is done is one past all keys.
fn key_at(row: Row<'_>, place: usize) -> u64
    requires placed { Placed row.index.now }
    requires list { row.number < tags row.index.now }
    requires label { AtLabel row.index.now row.number place }
    ensures { Key (lists_of row.entry.index.now) row.entry.number (position_at row.entry.index.now row.entry.number place) result }
{
    if place < row.end() {
        keys::key(label::start_at(row.index, place, 0), row.number)
    } else {
        tournament::PAST
    }
}
