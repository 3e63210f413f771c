// The four calls as C and Rust link them; include/roadthrum.h declares them. Each passes on what the inner call promises.
#![tactic(auto)]

ghost use Rattle.std.specs.Prelude.{◌≤◌, ◌≡◌};
ghost use Rattle.meaning.specs.Limits.{most_labels};
ghost use Rattle.meaning.specs.Numbers.{page_of, figure_numbers};
ghost use Rattle.meaning.specs.Promises.{Checked, Answered, Shown, Tabled};
ghost use Rattle.roadthrum_c.specs.Boundary.{numbers as Boundary·numbers, PassedOn};

use meaning::{Figures, Page, Refusal};

// What a call for rows gave, as five numbers. (a) The rows by `as`, which loses nothing below the bound that is asked: C has 32 bits for them,
// and `try_from` would make a failure that can't be.
fn numbers(outcome: Result<Page, Refusal>) -> [u32; 5]
    requires { (page_of outcome).rows ≤ most_labels }
    ensures { result ≡ Boundary·numbers outcome }
{
    match outcome {
        Ok(page) => [
            0, // A page is no refusal.
            page.rows as u32,
            u32::from(page.more),
            page.next,
            page.unknown.map_or(Page::NO_STEP, u32::from),
        ],
        Err(refusal) => [u32::from(refusal), 0, 0, 0, Page::NO_STEP],
    }
}

// What the waits call gave, as eight numbers.
fn figure_numbers(outcome: Result<Figures, Refusal>) -> [u64; 8]
    ensures { result ≡ figure_numbers outcome }
{
    match outcome {
        Ok(f) => [
            0,
            f.calls,
            f.boarded,
            f.cancelled,
            f.left_open,
            f.total,
            f.longest,
            f.over,
        ],
        Err(refusal) => [u64::from(u32::from(refusal)), 0, 0, 0, 0, 0, 0, 0],
    }
}

// The check call.
#[unsafe(no_mangle)]
pub extern "C" fn roadthrum_check(index: &[u8]) -> u32
    ensures { Checked index.now result }
{
    match day::check(index) {
        Ok(()) => 0,
        Err(refusal) => u32::from(refusal),
    }
}

// The answer call; its page's numbers are written to `res`.
#[unsafe(no_mangle)]
pub extern "C" fn roadthrum_answer(
    index: &[u8],
    question: &[u8],
    place: u32,
    rows: &mut [u32],
    res: &mut [u32; 5],
)
    ensures { PassedOn Boundary·numbers (Answered index.now question.now place rows.old rows.new) res.new }
{
    *res = numbers(answer::answer(index, question, place, rows));
}

// The evidence call; its page's numbers are written to `res`.
#[unsafe(no_mangle)]
pub extern "C" fn roadthrum_evidence(
    index: &[u8],
    question: &[u8],
    place: u32,
    rows: &mut [u32],
    res: &mut [u32; 5],
)
    ensures { PassedOn Boundary·numbers (Shown index.now question.now place rows.old rows.new) res.new }
{
    *res = numbers(answer::evidence(index, question, place, rows));
}

// The waits call; its figures are written to `figures`.
#[unsafe(no_mangle)]
pub extern "C" fn roadthrum_waits(index: &[u8], times: &[u32], figures: &mut [u64; 8])
    ensures { PassedOn figure_numbers (Tabled index.now times.now) figures.new }
{
    *figures = figure_numbers(waits::waits(index, times));
}
