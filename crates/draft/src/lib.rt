// How far the reading of a question has come: the draft, and what a step or a `]` makes of it.
#![tactic(auto)]

ghost use Rattle.std.specs.Prelude.{◌≡◌, [], ◌∷◌, ◌+◌, ◌≤◌, length, drop, OnErr};
ghost use Rattle.meaning.specs.Answers.{Decides};
ghost use Rattle.meaning.specs.Limits.{most_text};
ghost use Rattle.meaning.specs.Ends.{Stops};
ghost use Rattle.draft.specs.Drafts.{fresh, grown, handed_on};
ghost use Rattle.draft.specs.Steps.{Space, MayRead, LengthAt, StepRead, ShutAt, LeftBracket};

use meaning::{Name, Step};
use name::name_run;

// The text does not follow the notation: no step or no `]` stands where one must.
#[derive(Clone, Copy, Debug, PartialEq, Eq)]
pub struct Broken;

// How far the reading has come. There is one for a whole text, which each open bracket is lent. The text is no part of it, so that the theorems
// which fix what a reading gives (`step_fixed`, `path_fixed`) compare whole drafts.
#[derive(Clone, Copy)]
pub struct Draft {
    // The steps in text order, of which the first 32 are kept; as memory is fixed, it is an array, and the others are only counted.
    pub steps: [Step; Step::MOST],
    // How many steps were read.
    pub count: u16,
    // How many brackets stand around the deepest of them.
    pub deepest: u16,
    // Where the reading goes on.
    pub at: u16,
    // The step that was named last in the path that is being read.
    pub last: u16,
}

// How long the name is of the step, `//` and a name, at `at`, if a step stands there.
fn step_length(text: &[u8], at: usize) -> Option<u8>
    requires { at ≤ length text.now }
    ensures { LengthAt text.now at result }
{
    let name = text[at..].strip_prefix(b"//")?;
    let length = name_run(name);
    if length == 0 || length > Name::MOST_BYTES {
        return None;
    }
    Some(length as u8) // `as` is proved to lose nothing; `try_from` would make a failure that can't be.
}

// Whether a `]` stands at `at`.
fn shuts(text: &[u8], at: usize) -> bool
    ensures { Decides (ShutAt text.now at) result }
{
    text.get(at) == Some(&b']')
}

// Whether a path that has come to `at` ends there: at the text's end or at `]`.
pub fn ends(text: &[u8], at: usize) -> bool
    ensures { Decides (Stops (drop at text.now)) result }
{
    text.get(at).is_none_or(|byte| *byte == b']')
}

impl Draft {
    // The draft before the first byte.
    #[tactic(auto, unfolding(crate::specs::Drafts::fresh))]
    pub fn new() -> Draft
        ensures { result ≡ fresh }
    {
        let blank = Step {
            start: 0,
            length: 0,
            hangs: None,
        };
        Draft {
            steps: [blank; Step::MOST],
            count: 0,
            deepest: 0,
            at: 0,
            last: 0,
        }
    }

    // One step more, with its `//` where the reading is, and a name of so many bytes.
    #[tactic(auto, unfolding(crate::specs::Drafts::grown))]
    fn add(&mut self, length: u8, hang: Option<u16>, depth: u16)
        requires { Space length hang self.old }
        ensures { self.new ≡ grown self.old (record { start = self.old.at + 2; length = length; hangs = hang } ∷ []) depth (self.old.at + 2 + length) self.old.count }
    {
        let number = usize::from(self.count);
        let start = self.at + 2;
        if number < Step::MOST {
            self.steps[number] = Step {
                start,
                length,
                hangs: hang.map(|step| step as u8), // `as` is proved to lose nothing here, where the step is kept.
            };
        }
        self.last = self.count;
        self.count += 1;
        self.at = start + u16::from(length);
        self.deepest = self.deepest.max(depth);
    }

    // Reads the step that must stand here, in `depth` brackets, which hangs from step `hang`, or from nothing.
    pub fn step(&mut self, text: &[u8], hang: Option<u16>, depth: u16) -> Result<(), Broken>
        requires { MayRead text.now hang depth self.old }
        ensures read { StepRead text.now hang depth self.old (handed_on result self.new) }
        ensures unchanged { OnErr result (self.new ≡ self.old) }
    {
        let Some(length) = step_length(text, usize::from(self.at)) else {
            return Err(Broken); // No step stands here.
        };
        self.add(length, hang, depth);
        Ok(())
    }

    // Leaves a bracket by the `]` that must stand here: the path of step `me` goes on.
    pub fn leave(&mut self, text: &[u8], me: u16) -> Result<(), Broken>
        requires { length text.now ≤ most_text }
        ensures left { LeftBracket text.now me self.old (handed_on result self.new) }
        ensures unchanged { OnErr result (self.new ≡ self.old) }
    {
        if !shuts(text, usize::from(self.at)) {
            return Err(Broken); // No `]` stands here.
        }
        self.at += 1;
        self.last = me;
        Ok(())
    }
}
