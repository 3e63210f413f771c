// The answer call and the evidence call.
#![tactic(auto)]

ghost use Rattle.meaning.specs.Promises.{Answered, Shown};

use meaning::{Page, Refusal};
use pages::{Returned, Whole};
use response::respond;

// The answer call: a page of the list positions of the returned records, from `place` on.
pub fn answer(index: &[u8], question: &[u8], place: u32, out: &mut [u32]) -> Result<Page, Refusal>
    ensures { Answered index.now question.now place out.old out.new result }
{
    respond::<Returned>(index, question, place, out)
}

// The evidence call: a page of rows, one for each returned record from `place` on, with the list position of each step's record.
pub fn evidence(index: &[u8], question: &[u8], place: u32, out: &mut [u32]) -> Result<Page, Refusal>
    ensures { Shown index.now question.now place out.old out.new result }
{
    respond::<Whole>(index, question, place, out)
}
