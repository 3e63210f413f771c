// Refusal 5: each list looked at by itself.
#![tactic(auto)]

ghost use Rattle.std.specs.Prelude.{◌<◌};
ghost use Rattle.meaning.specs.Answers.{Decides};
ghost use Rattle.meaning.specs.Day.{tags, lists_of, WrongLists};
ghost use Rattle.lists.specs.Ordering.{BodyWrong, ListWrong, Looked};

use contents::Contents;
use meaning::Label;
use reader::Reader;

// Where the label after this one has to start at the earliest, where this one has to start at `low` or later; none where it does not, or where it
// does not end after it starts.
fn next_low(label: Label, low: u32) -> Option<u32>
    ensures { Looked low label result }
{
    if low <= label.start && label.start < label.end {
        Some(label.start + 1)
    } else {
        None
    }
}

// Whether a body has a label with start ≥ end, or does not ascend strictly by start. One reader goes from its first label to its end.
fn body_wrong(body: &[u8]) -> bool
    ensures { Decides (BodyWrong body.now) result }
{
    let mut low = 0;
    for label in Reader::new(body) {
        match next_low(label, low) {
            Some(next) => low = next,
            None => return true,
        }
    }
    false
}

// Whether list r is wrong by itself.
fn list_wrong(contents: Contents, r: usize) -> bool
    requires { r < tags contents.index.now }
    ensures { Decides (ListWrong (lists_of contents.entry.index.now) r) result }
{
    body_wrong(contents.body(r))
}

// Whether some list is wrong by itself.
pub fn lists_wrong(contents: Contents) -> bool
    ensures { Decides (WrongLists contents.entry.index.now) result }
{
    // `any` over these rows was tried, and is not proved: what `list_wrong` ensures in the closure is not found to be of this index.
    for r in 0..contents.tags() {
        if list_wrong(contents, r) {
            return true;
        }
    }
    false
}
