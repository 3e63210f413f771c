// Settling the cursors of a plan over an index.
ghost use Rattle.std.specs.Prelude.{◌≡◌, ◌≤◌, length};
ghost use Rattle.meaning.specs.Limits.{most_steps};
ghost use Rattle.meaning.specs.Bytes.{at};
ghost use Rattle.cursors.specs.Plan.{plan_of, Planned};
ghost use Rattle.cursors.specs.Cursors.{Unbroken, Settled};

use crate::Plan;
use crate::looking::{Record, Sight, look};
use meaning::Step;

// A plan over the index that it was made for.
#[derive(Clone, Copy)]
pub struct Engine<'a> {
    pub index: &'a [u8],
    pub plan: &'a Plan,
}

impl Engine<'_> {
    // Moves the cursors on to the first pick at or after them, from step `first` on, below which no edge is broken. Says whether there is one.
    pub fn settle(&self, pos: &mut [usize; Step::MOST], first: usize) -> bool
        requires planned { Planned self.now.index.now self.now.plan.now }
        requires begins { first ≤ self.now.plan.now.count }
        requires unbroken { Unbroken (plan_of self.now.index.now self.now.plan.now) (at pos.old) first }
        ensures settled { Settled (plan_of self.now.index.now self.now.plan.now) (at pos.old) result pos.new }
        ensures long { length pos.new ≡ most_steps }
    {
        let steps = &self.plan.steps;
        let count = self.plan.count;
        let mut s = first;
        // The walk goes on to the next step and falls back to one before it, so that no range gives its turns.
        while s < count {
            let step = steps[s];
            let p = pos[s];
            if step.list.count <= p {
                return false;
            }
            match step.hangs {
                None => {
                    s += 1;
                }
                Some(above) => {
                    let u = usize::from(above);
                    let q = pos[u];
                    let inner = Record {
                        list: step.list,
                        at: p,
                    };
                    let outer = Record {
                        list: steps[u].list,
                        at: q,
                    };
                    match look(self.index, inner, outer) {
                        Sight::Early(r) => {
                            pos[s] = r;
                        }
                        Sight::Late => {
                            pos[u] = q + 1;
                            s = u;
                        }
                        Sight::Touching => {
                            s += 1;
                        }
                    }
                }
            }
        }
        true
    }
}
