// What the public results are made of, and the limits of document 01, for every crate to share.
#![tactic(auto)]

mod refusal;

ghost use Rattle.std.specs.Prelude.{◌≡◌};
ghost use Rattle.meaning.specs.Limits.{most_tags, most_labels, most_nested, most_name, most_text, most_steps, most_depth};
ghost use Rattle.meaning.specs.Pages.{no_step};
ghost use Rattle.meaning.specs.Waits.{no_figures};

pub use refusal::Refusal;

// What a call says of the page that it wrote.
#[derive(Clone, Copy, PartialEq, Eq)]
pub struct Page {
    // How many rows were written.
    pub rows: usize,
    // Whether a further record remains.
    pub more: bool,
    // The place from which the next page goes on.
    pub next: u32,
    // The first step whose name has no row in the index, if there is one.
    pub unknown: Option<u8>,
}

impl Page {
    // What numbers tell in place of a step's where no step's name is unknown.
    pub const NO_STEP: u32 = 32;

    // What holds a constant to the number that the promises speak of is a function for each: the edits `no-step-31`, `limit-of-33-steps` and
    // `most-..` change a constant or a limit, and each has to be refused for its own.
    pub fn no_step() -> u32
        ensures { result ≡ no_step }
    {
        Page::NO_STEP
    }
}

// The waiting table of a day.
#[derive(Clone, Copy, PartialEq, Eq)]
pub struct Figures {
    // How many calls there are, and how many of them were boarded, were cancelled, and are open.
    pub calls: u64,
    pub boarded: u64,
    pub cancelled: u64,
    pub left_open: u64,
    // The wait of all boarded and cancelled calls together, and the longest of these waits, in milliseconds.
    pub total: u64,
    pub longest: u64,
    // Over how many calls the total is: the mean is the one divided by the other.
    pub over: u64,
}

impl Figures {
    // The figures of no calls.
    pub fn none() -> Figures
        ensures { result ≡ no_figures }
    {
        Figures {
            calls: 0,
            boarded: 0,
            cancelled: 0,
            left_open: 0,
            total: 0,
            longest: 0,
            over: 0,
        }
    }
}

// A label: the numbers at which a record starts and ends.
#[derive(Clone, Copy)]
pub struct Label {
    pub start: u32,
    pub end: u32,
}

impl Label {
    // A label takes 8 bytes of a body, and its end begins with the fifth.
    pub const BYTES: usize = 8;

    pub const END_AT: usize = 4;

    // Most labels that lie each inside the one before.
    pub const MOST_NESTED: usize = 64;

    // The limit that the promises speak of is this constant.
    pub fn most_nested() -> usize
        ensures { result ≡ most_nested }
    {
        Label::MOST_NESTED
    }
}

// A tag's list in an index: where its body begins, and its number of labels.
#[derive(Clone, Copy)]
pub struct Body {
    pub offset: usize,
    pub count: usize,
}

// A day index.
#[derive(Clone, Copy)]
pub struct Index {}

impl Index {
    // What stands before the rows, and a row of the table of contents.
    pub const HEAD_BYTES: usize = 4;

    pub const ROW_BYTES: usize = 24;

    // Where a row has its offset and its number of labels.
    pub const OFFSET_AT: usize = 16;

    pub const COUNT_AT: usize = 20;

    pub const MOST_TAGS: usize = 256;

    pub const MOST_LABELS: usize = 1_048_576;

    pub fn most_tags() -> usize
        ensures { result ≡ most_tags }
    {
        Index::MOST_TAGS
    }

    pub fn most_labels() -> usize
        ensures { result ≡ most_labels }
    {
        Index::MOST_LABELS
    }
}

// A name of a tag.
#[derive(Clone, Copy)]
pub struct Name {}

impl Name {
    pub const MOST_BYTES: usize = 16;

    pub fn most_bytes() -> usize
        ensures { result ≡ most_name }
    {
        Name::MOST_BYTES
    }
}

// A step of a question that was read.
#[derive(Clone, Copy)]
pub struct Step {
    // Where its name starts in the text, and how long it is.
    pub start: u16,
    pub length: u8,
    // The number of the step that it hangs from, if it hangs from one.
    pub hangs: Option<u8>,
}

impl Step {
    pub const MOST: usize = 32;

    // Most brackets that stand one in the other around a step.
    pub const MOST_DEPTH: usize = 8;

    pub fn most() -> usize
        ensures { result ≡ most_steps }
    {
        Step::MOST
    }

    pub fn most_depth() -> usize
        ensures { result ≡ most_depth }
    {
        Step::MOST_DEPTH
    }
}

// A question that was read: its steps in text order, how many there are, and which one is returned. Entries past the last step are blank: memory
// is fixed, so that the steps are an array with their number beside it.
#[derive(Clone, Copy)]
pub struct Question {
    pub steps: [Step; Step::MOST],
    pub count: usize,
    pub returned: usize,
}

impl Question {
    // Most bytes of a question's text.
    pub const MOST_BYTES: usize = 1_024;

    pub fn most_bytes() -> usize
        ensures { result ≡ most_text }
    {
        Question::MOST_BYTES
    }
}
