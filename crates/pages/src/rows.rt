// What a row of a page is, for each call that writes rows.
ghost use Rattle.std.specs.Prelude.{◌≡◌, ℕ, ◌+◌, ◌<◌, ◌≤◌, List};
ghost use Rattle.meaning.specs.Limits.{most_steps};
ghost use Rattle.meaning.specs.Picks.{Asked, Evidence};
ghost use Rattle.meaning.specs.Pages.{Position, answer_room, evidence_room};
ghost use Rattle.pages.specs.RowKinds.{RowKind, returned_kind, whole_kind};

use cursors::Plan;
use std::ops::Range;

// A kind of row: the part of the cursors that it has. `first` and `width` go by the number of steps and the returned step.
// The laws speak of all questions, not of one plan: both kinds are parts of every question, a call is proved once for whatever question it is asked,
// and no caller asks for another part.
pub trait Row {
    // The first step of a row, and how many steps it has.
    ghost first: { ℕ → ℕ → ℕ };

    ghost width: { ℕ → ℕ → ℕ };

    // What the row of a record is, and the room for rows in a buffer of some length.
    ghost is_row: { Asked → ℕ → List ℕ → Type 0 };

    ghost room: { Asked → ℕ → ℕ };

    // The steps whose positions a row has.
    fn steps(plan: &Plan) -> Range<usize>
        requires one { plan.now.returned < plan.now.count }
        requires few { plan.now.count ≤ most_steps }
        ensures from { result.start ≡ first plan.now.count plan.now.returned }
        ensures to { result.end ≡ first plan.now.count plan.now.returned + width plan.now.count plan.now.returned };

    // What both functions and both facts keep.
    ghost laws: { RowKind first width is_row room };
}

// A row of the answer call: the position of the returned step alone.
pub struct Returned {}

impl Row for Returned {
    ghost first = { λ k r. r };

    ghost width = { λ k r. 1 };

    ghost is_row = { λ a. Position };

    ghost room = { answer_room };

    fn steps(plan: &Plan) -> Range<usize> {
        plan.returned..plan.returned + 1
    }

    ghost laws = { returned_kind };
}

// A row of the evidence call: the positions of all steps.
pub struct Whole {}

impl Row for Whole {
    ghost first = { λ k r. 0 };

    ghost width = { λ k r. k };

    ghost is_row = { Evidence };

    ghost room = { evidence_room };

    fn steps(plan: &Plan) -> Range<usize> {
        0..plan.count
    }

    ghost laws = { whole_kind };
}
