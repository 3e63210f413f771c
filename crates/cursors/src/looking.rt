// A look from one cursor to the one above it.
ghost use Rattle.std.specs.Prelude.{◌+◌, ◌*◌, ◌<◌, ◌≤◌, length};
ghost use Rattle.label.specs.Started.{Ascends};
ghost use Rattle.cursors.specs.Looking.{Looks};

use meaning::Body;

// Where a record starts, seen from a record that it is to lie in.
#[derive(Clone, Copy)]
pub enum Sight {
    // At or before that record's start; the position of the first record of its list that starts later.
    Early(usize),
    // After that record's end.
    Late,
    // Within that record.
    Touching,
}

// A record, as its list and its position there.
#[derive(Clone, Copy)]
pub struct Record {
    pub list: Body,
    pub at: usize,
}

// Looks at a record from one that it is to lie in.
pub fn look(index: &[u8], inner: Record, outer: Record) -> Sight
    requires one { inner.at < inner.list.count }
    requires held { inner.list.offset + 8 * inner.list.count ≤ length index.now }
    requires above { outer.list.offset + 8 * outer.at + 8 ≤ length index.now }
    requires ascends { Ascends index.now inner.list.offset inner.list.count }
    ensures { Looks index.now inner outer result }
{
    let Record { list, at } = inner;
    let here = label::start_at(index, list.offset, at);
    let above = label::start_at(index, outer.list.offset, outer.at);
    if here <= above {
        // The record and those before it start no later, so that the search begins behind them.
        let later = label::started_from(index, list.offset, list.count, at + 1, above);
        return Sight::Early(later);
    }
    let last = label::end_at(index, outer.list.offset, outer.at);
    if last < here {
        return Sight::Late;
    }
    Sight::Touching
}
