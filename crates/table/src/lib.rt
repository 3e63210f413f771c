// Refusals 1 to 4 of a day index, which are about its table of contents.
#![tactic(auto)]

ghost use Rattle.std.specs.Prelude.{◌≡◌, ◌+◌, ◌*◌, ◌≤◌, ◌<◌, length};
ghost use Rattle.meaning.specs.Limits.{most_tags};
ghost use Rattle.meaning.specs.Day.{tags, row_at, body_at, RowRight};
ghost use Rattle.meaning.specs.Refusals.{Judged};
ghost use Rattle.meaning.specs.Answers.{Decides};
ghost use Rattle.table.specs.ContentsTable.{contents_table};
ghost use Rattle.table.specs.Tests.{InOrder, AllRows};

use contents::Row;
use contents::rows::{tags_of, version_of};
use filled::{comes_before, has_name};
use meaning::{Index, Label, Refusal};

// Whether a row comes after the row before it, if there is one.
#[tactic(auto, using(crate::proofs::RowLaws::first_in_order, crate::proofs::RowLaws::later_in_order, meaning::specs::Answers::holds))]
fn in_order(row: Row) -> bool
    ensures { Decides (InOrder row.entry.index.now row.entry.number) result }
{
    row.number == 0
        || {
            let last = Row {
                index: row.index,
                number: row.number - 1,
            };
            comes_before(last.name_field(), row.name_field())
        }
}

// Whether a row is right, where its body has to begin at `place`. That may be more than the 32 bits of an offset can say, so the two are compared
// as usize.
fn row_right(row: Row, place: usize) -> bool
    requires { place ≡ body_at row.index.now row.number }
    ensures { Decides (RowRight row.entry.index.now row.entry.number) result }
{
    has_name(row.name_field()) && in_order(row) && row.offset() == place
}

// How many labels all rows have together, if each row is right. The sum is exact: 256 counts of 32 bits fit a usize many times over.
#[tactic(auto, using(crate::proofs::RowLaws::counted_begin, crate::proofs::RowLaws::counted_on, crate::proofs::RowLaws::counted_end, meaning::proofs::Decide::if_not_true, meaning::proofs::Decide::if_not_false))]
fn all_labels(index: &[u8], many: usize) -> Option<usize>
    requires all { many ≡ tags index.now }
    requires few { many ≤ most_tags }
    requires within { row_at many ≤ length index.now }
    ensures { AllRows index.now result }
{
    let bodies = Index::HEAD_BYTES + Index::ROW_BYTES * many;
    let mut labels = 0;
    for number in 0..many {
        let row = Row { index, number };
        if !row_right(row, bodies + Label::BYTES * labels) {
            return None;
        }
        labels += row.count();
    }
    Some(labels)
}

// Whether the index is refused for its table of contents, and for which of the first four reasons.
#[tactic(auto, using(crate::proofs::TableLaws::refused_1, crate::proofs::TableLaws::refused_2, crate::proofs::TableLaws::refused_3, crate::proofs::TableLaws::refused_4, crate::proofs::TableLaws::accepted))]
pub fn check(index: &[u8]) -> Result<(), Refusal>
    ensures { Judged (contents_table index.now) result }
{
    if index.len() < 4 {
        return Err(Refusal::TooShort);
    }
    if version_of(index) != 1 {
        return Err(Refusal::OtherVersion);
    }
    let many = tags_of(index);
    if Index::MOST_TAGS < many {
        return Err(Refusal::WrongContents);
    }
    let bodies = Index::HEAD_BYTES + Index::ROW_BYTES * many;
    if index.len() < bodies {
        return Err(Refusal::WrongContents);
    }
    let labels = all_labels(index, many).ok_or(Refusal::WrongContents)?;
    if Index::MOST_LABELS < labels {
        return Err(Refusal::WrongContents);
    }
    if index.len() != bodies + Label::BYTES * labels {
        return Err(Refusal::WrongLength);
    }
    Ok(())
}
