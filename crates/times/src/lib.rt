// The times that are lent beside a day index: refusals 20 and 21.
#![tactic(auto)]

ghost use Rattle.std.specs.Prelude.{◌<◌};
ghost use Rattle.meaning.specs.Answers.{Decides};
ghost use Rattle.meaning.specs.Day.{tags, row_list};
ghost use Rattle.meaning.specs.Waits.{NoEntry, TimesDescend};
ghost use Rattle.meaning.specs.Refusals.{Judged, times_table};
ghost use Rattle.contents.specs.Parts.{InIndex};
ghost use Rattle.times.specs.Entries.{EndsPast};

use contents::{Contents, LawfulDay};
use meaning::{Body, Refusal};

// Whether a label of a list ends at a number that has none of so many entries. There is no `From` of 32 bits to a usize: a cast.
fn ends_past(index: &[u8], list: Body, entries: usize) -> bool
    requires { InIndex index.now list }
    ensures { Decides (EndsPast index.now list entries) result }
{
    (0..list.count).any(|i| entries <= label::end_at(index, list.offset, i) as usize)
}

// Whether a label of row r's list does.
fn row_ends_past(contents: Contents, r: usize, entries: usize) -> bool
    requires { r < tags contents.index.now }
    ensures { Decides (EndsPast contents.entry.index.now (row_list contents.entry.index.now r) entries) result }
{
    ends_past(contents.index, contents.row(r).list(), entries)
}

// Whether some start or end of a lawful day has no entry. A label's end is the greater of its numbers, so that the ends are enough.
fn entry_missing(day: LawfulDay, times: &[u32]) -> bool
    ensures { Decides (NoEntry day.entry.index.now times.now) result }
{
    let contents = day.contents();
    (0..contents.tags()).any(|r| row_ends_past(contents, r, times.len()))
}

// Whether an entry anywhere in the list is smaller than the one before. The pass has no other way out than its end, so that the compiler may
// look at many entries at once: one that returns at the first, as `is_sorted` does, was measured at 1.4 times the twin.
fn descend(times: &[u32]) -> bool
    ensures { Decides (TimesDescend times.now) result }
{
    let mut smaller = false;
    for pair in times.windows(2) {
        smaller |= pair[1] < pair[0];
    }
    smaller
}

// Whether the times of a lawful day are refused, and for which reason. Both passes are made before either is judged, so that the order of the two
// refusals is that of two lines, which the edit `descent-before-entries` exchanges.
#[tactic(auto, using(meaning::proofs::Decide::if_true, meaning::proofs::Decide::if_false, crate::proofs::Looking::refused_20, crate::proofs::Looking::refused_21, crate::proofs::Looking::timely))]
pub fn check(day: LawfulDay, times: &[u32]) -> Result<(), Refusal>
    ensures { Judged (times_table day.entry.index.now times.now) result }
{
    let missing = entry_missing(day, times);
    let descent = descend(times);
    if missing {
        return Err(Refusal::NoEntry);
    }
    if descent {
        return Err(Refusal::TimesDescend);
    }
    Ok(())
}
