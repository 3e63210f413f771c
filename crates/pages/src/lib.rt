// One page of rows: the cursors are settled once for each row, and the row is a part of them.
#![tactic(auto)]

mod rows;

ghost use Rattle.std.specs.Prelude.{◌≡◌, ℕ, ◌+◌, ◌-◌, ◌/◌, ◌<◌, ◌≤◌, false, length, set, replicate};
ghost use Rattle.meaning.specs.Limits.{most_labels, most_steps};
ghost use Rattle.meaning.specs.Bytes.{at};
ghost use Rattle.meaning.specs.Pages.{Paged};
ghost use Rattle.cursors.specs.Plan.{plan_of, planned_step, Planned};
ghost use Rattle.pages.specs.RowParts.{PartOf, Put};

use cursors::{Engine, Plan};
use meaning::{Page, Step};
pub use rows::{Returned, Row, Whole};
use std::ops::Range;

// Cursors at the beginning of each list, but that of the returned step, which is at the page's place.
fn start_from(returned: usize, place: usize) -> [usize; Step::MOST]
    requires { returned < most_steps }
    ensures { result ≡ set (replicate most_steps 0) returned place }
{
    let mut pos = [0; Step::MOST];
    pos[returned] = place;
    pos
}

// Writes a part of the positions, all of it, to the buffer at `to`.
// (c) The part is read by index, and not by `row.iter_mut().zip(part)`: behind a loop over an adapter of `iter_mut` a proof knows the row's length
// and none of its numbers (Rattle's docs/NOT_COVERED.md, "Covered, and left open").
fn put_row(out: &mut [u32], to: usize, part: &[usize])
    requires within { to + length part.now ≤ length out.old }
    requires small { (i : ℕ) → i < length part.now → at part.now i < most_labels }
    ensures { Put out.old to part.now out.new }
{
    let row = &mut out[to..to + part.len()];
    for (i, position) in row.iter_mut().enumerate() {
        // A position is below the most labels, so that nothing is lost: a conversion that may fail would have nothing to say.
        *position = part[i] as u32;
    }
}

// What a page tells where no record is left behind its rows.
fn last_page(plan: &Plan, rows: usize, unknown: Option<u8>) -> Page
    requires one { plan.now.returned < plan.now.count }
    requires few { plan.now.count ≤ most_steps }
    requires small { (s : ℕ) → s < plan.now.count → (planned_step plan.now s).list.count ≤ most_labels }
    ensures { result ≡ record { rows = rows; more = false; next = (planned_step plan.now plan.now.returned).list.count; unknown = unknown } }
{
    Page {
        rows,
        more: false,
        // It fits, as a list has no more labels than a u32 can count: a conversion that may fail would have nothing to say.
        next: plan.steps[plan.returned].list.count as u32,
        unknown,
    }
}

// A page from `place` on: for each record the positions of these steps. It tells the unknown step that it is given.
#[tactic(auto, using(cursors::proofs::SettleTurns::ret_of, cursors::proofs::SettleTurns::ret_few))]
pub fn write_page(
    engine: &Engine,
    steps: Range<usize>,
    place: usize,
    unknown: Option<u8>,
    out: &mut [u32],
) -> Page
    requires planned { Planned engine.now.index.now engine.now.plan.now }
    requires some { steps.start < steps.end }
    requires within { steps.end ≤ engine.now.plan.now.count }
    ensures paged { let a = plan_of engine.now.index.now engine.now.plan.now in let width = steps.end - steps.start in Paged a (PartOf a steps.start width) place (length out.old / width) out.old out.new result }
    ensures told { result.unknown ≡ unknown }
{
    let plan = engine.plan;
    let returned = plan.returned;
    let width = steps.end - steps.start;
    let room = out.len() / width;
    let mut pos = start_from(returned, place);
    let mut first = 0;
    for rows in 0..room {
        if !engine.settle(&mut pos, first) {
            return last_page(plan, rows, unknown);
        }
        let to = rows * width;
        put_row(out, to, &pos[steps.start..steps.end]);
        pos[returned] += 1;
        first = returned;
    }
    if !engine.settle(&mut pos, first) {
        return last_page(plan, room, unknown);
    }
    Page {
        rows: room,
        more: true,
        // It fits as a row's positions do, and so does the number of labels on a last page.
        next: pos[returned] as u32,
        unknown,
    }
}
