// What the answer call and the evidence call do.
#![tactic(auto)]

ghost use Rattle.response.specs.Response.{Responds};

use contents::LawfulDay;
use cursors::Engine;
use meaning::{Page, Refusal};
use pages::{Row, write_page};

// What both calls for rows do: check the index, read the question, find each step's list or that its name has none, and write a page of rows.
pub fn respond<R: Row>(
    index: &[u8],
    text: &[u8],
    place: u32,
    out: &mut [u32],
) -> Result<Page, Refusal>
    ensures { Responds R.is_row R.room index.now text.now place out.old out.new result }
{
    day::check(index)?;
    let question = question::read(text)?;
    let day = LawfulDay { index };
    let (plan, unknown) = plan::draw(day, text, &question);
    let engine = Engine { index, plan: &plan };
    // A place is widened: no conversion from u32 to usize stands in the library's `From`.
    Ok(write_page(&engine, R::steps(&plan), place as usize, unknown, out))
}
