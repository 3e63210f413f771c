// Refusal 6: all lists together, in order of start, with the table of the records that are still open.
ghost use Rattle.meaning.specs.Answers.{Decides};
ghost use Rattle.meaning.specs.Day.{lists_of, WrongNesting};
ghost use Rattle.lists.specs.Ordering.{Ordered};

use contents::Contents;
use meaning::Label;
use open::Open;
use order::Walk;
use turn::Turn;

// Whether two labels share a number or cross, or 65 are nested. The table is here: of its places the first `depth` hold the open records, outermost first,
// and are lent to each turn. (Memory is fixed: an array with their number beside it.) A turn may stay at its label, so that nothing counts the turns.
pub fn nesting_wrong(contents: Contents) -> bool
    requires { Ordered (lists_of contents.index.now) }
    ensures { Decides (WrongNesting contents.entry.index.now) result }
{
    let mut walk = Walk::begin(contents);
    let mut coming = walk.comes_next();
    let mut table = [Open::default(); Label::MOST_NESTED];
    let mut depth = 0;
    'turns: loop {
        match turn::judge(&mut walk, &table[..depth], coming) {
            Turn::Over { wrong } => return wrong,
            Turn::Closed { coming: next } => {
                depth -= 1;
                coming = next;
            }
            Turn::Opened {
                inner,
                coming: next,
            } => {
                open::push(&mut table, depth, inner);
                depth += 1;
                coming = next;
            }
        }
    }
}
