// The reading of a question.
#![tactic(auto)]

ghost use Rattle.std.specs.Prelude.{◌≡◌, ◌+◌, ◌≤◌, length, take, drop};
ghost use Rattle.question.specs.Promise.{ReadAs};

use draft::Draft;
use meaning::{Question, Refusal, Step};
use path::read_path;

// Reads a question.
pub fn read(text: &[u8]) -> Result<Question, Refusal>
    ensures { ReadAs text.now result }
{
    let too_long = text.len() > Question::MOST_BYTES;
    if too_long {
        return Err(Refusal::TooLong);
    }
    let draft = read_path(text, None, 0, Draft::new()).or(Err(Refusal::NotFollowing))?; // No path stands there.
    // What is tested has a name, here and below, so that an edit that changes it is refused at the fact and not for a name that is gone.
    let rest = text.len() - usize::from(draft.at);
    let goes_on = rest > 0;
    if goes_on {
        return Err(Refusal::NotFollowing); // The text goes on behind the path.
    }
    let count = usize::from(draft.count);
    let too_many = count > Step::MOST;
    if too_many {
        return Err(Refusal::TooLarge); // It has too many steps.
    }
    let too_deep = usize::from(draft.deepest) > Step::MOST_DEPTH;
    if too_deep {
        return Err(Refusal::TooLarge); // Its brackets go too deep.
    }
    let steps = draft.steps;
    Ok(Question {
        steps,
        count,
        returned: usize::from(draft.last),
    })
}

// A step's name, as a part of the text.
pub fn name_of<'a>(text: &'a [u8], step: Step) -> &'a [u8]
    requires { step.start + step.length ≤ length text.now }
    ensures { result.now ≡ take step.length (drop step.start text.now) }
{
    let from = usize::from(step.start);
    let to = from + usize::from(step.length);
    &text[from..to]
}
