// What the program prints: on `out`, which is the standard output, and a note on `err`, the standard error. A call that can't print on `out`
// gives up with the error.
ghost use Rattle.std.specs.Prelude.{ℕ, ◌*◌, ◌<◌, ◌≡◌, length, IfErr};
ghost use Rattle.meaning.specs.Limits.{most_steps};
ghost use Rattle.meaning.specs.Bytes.{at};
ghost use Rattle.cursors.specs.Plan.{planned_step};
ghost use Rattle.plan.specs.Drawn.{Asks};
ghost use Rattle.roadthrum.specs.PageRows.{RowAt, PageGiven, Tells};
ghost use Rattle.roadthrum.specs.Stopping.{Stops};

use crate::error::Error;
use crate::files::Input;
use contents::LawfulDay;
use cursors::Plan;
use lines::Line;
use meaning::{Page, Question, Step};
use plan::draw;
use std::io;

// Numbers of a page: 64 rows of the longest question. Each page checks the index again, so that more rows on a page are fewer checks.
const ROOM: usize = 64 * Step::MOST;

// Prints the lines of the rows that stand in `rows` one behind the other, each of as many list positions as there are offsets.
// (a) By place, and not by `chunks_exact`: the edit lines/row-from-the-first needs that `lines` picks the row out of all rows.
fn print_lines(
    out: &impl Print,
    index: &[u8],
    offsets: &[usize],
    rows: &[u32],
    many: usize,
) -> io::Result<()>
    requires { (j : ℕ) → j < many → RowAt index.now offsets.now rows.now (j * length offsets.now) }
{
    let k = offsets.len();
    for row in 0..many {
        let from = row * k;
        let line = Line::of_row(index, offsets, rows, from);
        out.write_all(line.as_bytes())?;
    }
    Ok(())
}

// Where the list of each step of a plan begins in the index.
fn offsets_of(plan: &Plan) -> [usize; Step::MOST]
    ensures { (s : ℕ) → s < most_steps → at result s ≡ (planned_step plan.now s).list.offset }
{
    plan.steps.map(|step| step.list.offset)
}

// Prints a line for each row of a page that the evidence call gave, of the question that stands in the text.
fn print_rows(
    out: &impl Print,
    input: Input,
    question: &Question,
    rows: &[u32],
    page: Page,
) -> io::Result<()>
    requires given { PageGiven input.index.now input.text.now rows.now page }
    requires asked { Asks input.text.now question.now }
{
    let day = LawfulDay { index: input.index };
    let (plan, _) = draw(day, input.text, question);
    let offsets = offsets_of(&plan);
    print_lines(out, input.index, &offsets[..plan.count], rows, page.rows)
}

// Says on standard error, if a step's name has no row in the index, which step it is, counted from 1, and its name as it stands in the text.
// Whoever misspelled it sees why there are no records. Where nothing can be said there, it is left unsaid.
fn note_unknown(err: &impl Print, text: &[u8], question: &Question, unknown: Option<u8>)
    requires told { Tells text.now unknown }
    requires asked { Asks text.now question.now }
{
    if let Some(step) = unknown {
        let name = question::name_of(text, question.steps[usize::from(step)]);
        let number = u32::from(step) + 1;
        let _ = print!(err; "note: step {number}: no record of this day is called \"");
        let _ = err.write_all(name);
        let _ = println!(err; "\"");
    }
}

// Prints all evidence, page by page, and how many rows there were.
// (a) A loop and no iterator over pages: memory is fixed, so that all pages are written to the one buffer, which an item can't hold.
pub fn show(out: &impl Print, err: &impl Print, input: Input) -> Result<(), Error>
    ensures { IfErr result (Stops input.entry.index.now input.entry.text.now) }
{
    let mut rows = [0u32; ROOM];
    let mut place = 0;
    let mut total = 0;
    loop {
        let page = answer::evidence(input.index, input.text, place, &mut rows)?;
        let question = question::read(input.text)?;
        print_rows(out, input, &question, &rows, page)?;
        total += page.rows as u64; // There is no `From<usize>` for `u64`; on 64 bits `as` loses nothing.
        if !page.more {
            note_unknown(err, input.text, &question, page.unknown);
            return Ok(println!(out; "done {total}")?);
        }
        place = page.next;
    }
}
