// One turn of the sweep of all lists in order of start, with all its decisions; the loop and the table are the caller's.
#![tactic(auto)]

ghost use Rattle.std.specs.Prelude.{◌≡◌, ◌<◌, ◌≤◌, length, IfNone, IfSome};
ghost use Rattle.meaning.specs.Limits.{most_nested};
ghost use Rattle.meaning.specs.Answers.{Decides};
ghost use Rattle.meaning.specs.Day.{lists_of};
ghost use Rattle.order.specs.Walk.{Foretells};
ghost use Rattle.order.specs.Standing.{cursor};
ghost use Rattle.turn.specs.Sweep.{innermost, Closes, Refuses, Turned};

use meaning::Label;
use open::Open;
use order::{Met, Walk};

// What a turn makes of the sweep.
#[derive(Clone, Copy)]
pub enum Turn {
    // It is over, and something is wrong or nothing is.
    Over { wrong: bool },
    // The innermost open record is closed, and what comes next stays.
    Closed { coming: Option<Met> },
    // The label that came next was handed out and is opened, as the innermost record; and what comes next then.
    Opened { inner: Open, coming: Option<Met> },
}

// The innermost of the open records, which is the last.
fn last_of(records: &[Open]) -> Option<Open>
    ensures none { IfNone result (length records.now ≡ 0) }
    ensures some { IfSome result (λ inner. 0 < length records.now) }
    ensures last { IfSome result (λ inner. inner ≡ innermost records.now) }
{
    let last = records.len().checked_sub(1)?;
    Some(open::pop(records, last))
}

// Whether the innermost open record ends before `start`.
fn closes(records: &[Open], start: u32) -> bool
    ensures { Decides (Closes records.now start) result }
{
    let Some(inner) = last_of(records) else {
        return false;
    };
    inner.end < start
}

// Whether a record that starts before the innermost open one has ended is refused.
fn refused(records: &[Open], start: u32, end: u32) -> bool
    ensures { Decides (Refuses records.now start end) result }
{
    let Some(inner) = last_of(records) else {
        return false;
    };
    let full = records.len() == Label::MOST_NESTED;
    inner.start == start || inner.end <= end || full
}

// One turn, with all its decisions: by the label that comes next it closes the innermost open record, refuses the label or opens it.
pub fn judge(walk: &mut Walk<'_>, records: &[Open], coming: Option<Met>) -> Turn
    requires foretold { Foretells (lists_of walk.old.index.now) (cursor walk.old.index.now walk.old.places) coming }
    requires shallow { length records.now ≤ most_nested }
    ensures index { walk.new.index ≡ walk.old.index }
    ensures turned { Turned walk.old.index.now walk.old.places walk.old.keys records.now coming walk.new.places walk.new.keys result }
{
    let Some(met) = coming else {
        return Turn::Over { wrong: false };
    };
    if closes(records, met.start) {
        return Turn::Closed { coming };
    }
    if refused(records, met.start, met.end) {
        return Turn::Over { wrong: true };
    }
    let next = walk.pass(met.list);
    let inner = Open {
        start: met.start,
        end: met.end,
        list: met.list as u32, // A list's number is below 256: `as` is proved to lose nothing.
    };
    Turn::Opened {
        inner,
        coming: next,
    }
}
