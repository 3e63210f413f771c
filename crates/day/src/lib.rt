// The check of a day index.
#![tactic(auto)]

mod sweep;

ghost use Rattle.meaning.specs.Refusals.{Judged, check_table};

use contents::Contents;
use lists::lists_wrong;
use meaning::Refusal;
use sweep::nesting_wrong;

// The check call: the first reason for which the index is refused, or success exactly for a lawful one. Each part may rest on what the parts
// before it have found.
pub fn check(index: &[u8]) -> Result<(), Refusal>
    ensures { Judged (check_table index.now) result }
{
    table::check(index)?;
    let contents = Contents { index };
    if lists_wrong(contents) {
        return Err(Refusal::WrongLists);
    }
    if nesting_wrong(contents) {
        return Err(Refusal::WrongNesting);
    }
    Ok(())
}
