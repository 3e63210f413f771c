// The waiting table of three bodies: the calls in order of start, each with what ends its wait. One place among the boardings and one among the
// cancellations move on only forward, and nothing is kept of a call but what it adds to the figures.
#![tactic(auto)]

ghost use Rattle.std.specs.Prelude.{◌≡◌, ◌+◌, ◌-◌, ◌/◌, ◌≤◌, ◌<◌, length};
ghost use Rattle.meaning.specs.Bytes.{at};
ghost use Rattle.meaning.specs.Waits.{in_body, traffic_of, Figured};
ghost use Rattle.meaning.specs.Fit.{Sound};
ghost use Rattle.label.specs.Started.{Ascends, Between, Started};
ghost use Rattle.tally.specs.Sights.{Whole, FirstStart, Decided};
ghost use Rattle.tally.specs.Adding.{Small, WaitTimed, Timed, waited_for, added};

use meaning::{Figures, Label};

// The records of a body, which ascend by start, and how many of them start no later than the calls that were looked from so far.
#[derive(Clone, Copy)]
struct Records<'a> {
    body: &'a [u8],
    passed: usize,
    ghost ascends: { Ascends body.now 0 (length body.now / 8) },
}

impl<'a> Records<'a> {
    // The records of a body, none of them passed.
    fn new(body: &'a [u8]) -> Records<'a>
        requires { Ascends body.now 0 (length body.now / 8) }
        ensures body { result.body ≡ body.entry }
        ensures passed { result.passed ≡ 0 }
    {
        Records { body, passed: 0 }
    }

    // Moves on to the first record that starts after a call, and gives where the first that lies inside the call starts, if there is one.
    #[tactic(auto, using(crate::proofs::Sighting::moves_on))]
    fn look(&mut self, call: Label) -> Option<u32>
        requires passed { Between self.old.body.now 0 (length self.old.body.now / 8) call.start self.old.passed (length self.old.body.now / 8) }
        requires whole { Whole (in_body self.old.body.now) call }
        ensures body { self.new.body ≡ self.old.body }
        ensures passed { Started self.old.body.now 0 (length self.old.body.now / 8) call.start self.new.passed }
        ensures first { FirstStart (in_body self.old.body.now) call result }
    {
        let n = self.body.len() / Label::BYTES;
        self.passed = label::started_from(self.body, 0, n, self.passed, call.start);
        self.first_inside(call)
    }

    // Where the first record that lies inside a call starts, if there is one: only the first that starts after the call can be it.
    #[tactic(auto, using(crate::proofs::Sighting::sees_end, crate::proofs::Sighting::sees_later, crate::proofs::Sighting::sees_first))]
    fn first_inside(&self, call: Label) -> Option<u32>
        requires passed { Started self.now.body.now 0 (length self.now.body.now / 8) call.start self.now.passed }
        requires whole { Whole (in_body self.now.body.now) call }
        ensures { FirstStart (in_body self.now.body.now) call result }
    {
        if self.passed < self.body.len() / Label::BYTES {
            let start = label::start_at(self.body, 0, self.passed);
            if start < call.end {
                return Some(start);
            }
        }
        None
    }
}

// What becomes of a call, with the number at which its wait ends.
#[derive(Clone, Copy)]
pub enum Outcome {
    Boarded(u32),
    Cancelled(u32),
    Open,
}

// What becomes of a call in which the first boarding and the first cancellation start at these numbers, where there are such: the one that starts
// first ends the wait. On a lawful day no two start at one number.
fn decide(board: Option<u32>, cancel: Option<u32>) -> Outcome
    ensures { Decided board cancel result }
{
    match (board, cancel) {
        (Some(board), Some(cancel)) if cancel < board => Outcome::Cancelled(cancel),
        (Some(board), _) => Outcome::Boarded(board),
        (None, Some(cancel)) => Outcome::Cancelled(cancel),
        (None, None) => Outcome::Open,
    }
}

// The wait from a call's start to the number at which it ends, in 64 bits. A place of 32 bits is made a usize by a cast: there is no `From` for it.
fn wait(times: &[u32], start: u32, until: u32) -> u64
    requires { WaitTimed times.now start until }
    ensures value { result ≡ at times.now until - at times.now start }
    ensures most { result ≤ 4294967295 }
{
    u64::from(times[until as usize] - times[start as usize])
}

// The figures with one call more that has waited: what a boarded call and a cancelled call add alike.
fn waited(f: Figures, wait: u64) -> Figures
    requires small { Small f }
    requires most { wait ≤ 4294967295 }
    ensures { result ≡ waited_for wait f }
{
    Figures {
        calls: f.calls + 1,
        total: f.total + wait,
        longest: f.longest.max(wait),
        over: f.over + 1,
        ..f
    }
}

// The figures with one call more, which starts at a number and has an outcome.
fn add(f: Figures, times: &[u32], start: u32, outcome: Outcome) -> Figures
    requires small { Small f }
    requires timed { Timed times.now start outcome }
    ensures value { result ≡ added (at times.now) start f outcome }
    ensures most { result.total ≤ f.total + 4294967295 }
{
    match outcome {
        Outcome::Boarded(board) => Figures {
            boarded: f.boarded + 1,
            ..waited(f, wait(times, start, board))
        },
        Outcome::Cancelled(cancel) => Figures {
            cancelled: f.cancelled + 1,
            ..waited(f, wait(times, start, cancel))
        },
        Outcome::Open => Figures {
            calls: f.calls + 1,
            left_open: f.left_open + 1,
            ..f
        },
    }
}

// The figures of all calls of a body.
pub fn tally(calls: &[u8], boards: &[u8], cancels: &[u8], times: &[u32]) -> Figures
    requires { Sound (traffic_of calls.now boards.now cancels.now times.now) (length times.now) }
    ensures { Figured (traffic_of calls.now boards.now cancels.now times.now) (length calls.now / 8) result }
{
    let mut figures = Figures::none();
    let mut boardings = Records::new(boards);
    let mut cancellations = Records::new(cancels);
    // A `for` over a `Reader` was proved, and took up to 1.2 times as long on lift days, which is past the bar beside the twin.
    for i in 0..calls.len() / Label::BYTES {
        let call = label::label_at(calls, 0, i);
        let board = boardings.look(call);
        let cancel = cancellations.look(call);
        figures = add(figures, times, call.start, decide(board, cancel));
    }
    figures
}
