// The engine: a cursor for each step of a question, moved on until all fit. It works over a lent index and plan, and knows neither names nor text.
// No cursor ever moves back, so that all moves of one page together are at most as many as the lists of the question's steps have records.
#![tactic(auto)]

mod looking;
mod settling;

pub use looking::Sight;
use meaning::{Body, Step};
pub use settling::Engine;

// A step of a plan: the number of the step that it hangs from, if it hangs from one, and its list in the index.
#[derive(Clone, Copy)]
pub struct PlanStep {
    pub hangs: Option<u8>,
    pub list: Body,
}

impl PlanStep {
    // An entry past the last step: it hangs from nothing, and its list is empty.
    pub const BLANK: PlanStep = PlanStep {
        hangs: None,
        list: Body {
            offset: 0,
            count: 0,
        },
    };
}

// What the engine needs of a question: its steps in text order, how many there are, and which one is returned. Entries past the last step are
// blank: memory is fixed, so that the steps are an array with their number beside it.
#[derive(Clone, Copy)]
pub struct Plan {
    pub steps: [PlanStep; Step::MOST],
    pub count: usize,
    pub returned: usize,
}
