// The waits call.
#![tactic(auto)]

ghost use Rattle.std.specs.Prelude.{◌≡◌, IfOk};
ghost use Rattle.meaning.specs.Waits.{traffic, Figured};
ghost use Rattle.meaning.specs.Refusals.{Judged, check_table, times_table};
ghost use Rattle.meaning.specs.Promises.{Tabled};

use contents::LawfulDay;
use meaning::{Figures, Refusal};

// The day of an index, which is refused if it is not lawful.
fn lawful_day<'a>(index: &'a [u8]) -> Result<LawfulDay<'a>, Refusal>
    ensures judged { Judged (check_table index.now) result }
    ensures same { IfOk result (λ day. day.index.now ≡ index.now) }
{
    day::check(index)?;
    Ok(LawfulDay { index })
}

// The waiting table of a lawful day, whose times may be refused.
fn table_of(day: LawfulDay, times: &[u32]) -> Result<Figures, Refusal>
    ensures judged { Judged (times_table day.entry.index.now times.now) result }
    ensures figured { IfOk result (λ f. Figured (traffic day.entry.index.now times.now) (traffic day.entry.index.now times.now).calls.count f) }
{
    times::check(day, times)?;
    Ok(tally::tally(
        day.lookup(b"call"),
        day.lookup(b"board"),
        day.lookup(b"cancel"),
        times,
    ))
}

// The waits call: the waiting table of a day, whose starts and ends i have the times that stand at place i.
pub fn waits(index: &[u8], times: &[u32]) -> Result<Figures, Refusal>
    ensures { Tabled index.now times.now result }
{
    let day = lawful_day(index)?;
    table_of(day, times)
}
