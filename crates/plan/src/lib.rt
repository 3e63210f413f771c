// The plan of a question: what the engine needs of each step, found once.
#![tactic(auto)]

ghost use Rattle.plan.specs.Drawn.{Asks, Draws};

use contents::LawfulDay;
use cursors::{Plan, PlanStep};
use meaning::{Question, Step};

// The plan of a question that was read from the text, and the first step whose name no row has. It is made once a call, and lent to the engine.
// A step whose name no row has, has no records.
pub fn draw(day: LawfulDay, text: &[u8], question: &Question) -> (Plan, Option<u8>)
    requires { Asks text.now question.now }
    ensures { Draws day.entry.index.now text.now result.0 result.1 }
{
    let mut steps = [PlanStep::BLANK; Step::MOST];
    let mut unknown = None;
    for s in 0..question.count {
        let step = question.steps[s];
        steps[s].hangs = step.hangs;
        let Some(list) = day.find(question::name_of(text, step)) else {
            // A step's number is below 32, so that nothing is lost.
            unknown = unknown.or(Some(s as u8));
            continue;
        };
        steps[s].list = list;
    }
    let plan = Plan {
        steps,
        count: question.count,
        returned: question.returned,
    };
    (plan, unknown)
}
