// A lawful day: its table of contents, and what it has under a name.
ghost use Rattle.std.specs.Prelude.{◌≡◌};
ghost use Rattle.meaning.specs.Day.{Finds, body_of};
ghost use Rattle.meaning.specs.Refusals.{Lawful};

use crate::placed::Contents;
use crate::rows::body_at;
use filled::is_filled;
use meaning::Body;

// A lawful index: one that is refused for nothing.
#[derive(Clone, Copy)]
pub struct LawfulDay<'a> {
    pub index: &'a [u8],
    pub ghost lawful: { Lawful index.now },
}

impl<'a> LawfulDay<'a> {
    // Its table of contents.
    #[tactic(auto, using(crate::proofs::Placing::lawful_placed))]
    pub fn contents(self) -> Contents<'a>
        ensures { result.index ≡ self.entry.index }
    {
        Contents { index: self.index }
    }

    // Looks up a name: its list, as where the body begins and its number of labels, if a row has the name. The rows are looked at from the last
    // to the first.
    pub fn find(self, name: &[u8]) -> Option<Body>
        ensures { Finds self.entry.index.now name.now result }
    {
        let contents = self.contents();
        for r in (0..contents.tags()).rev() {
            let row = contents.row(r);
            if is_filled(row.name_field(), name) {
                return Some(row.list());
            }
        }
        None
    }

    // The body of a name's list, as a part of the index itself; an empty part for a name without a row, and for a row without labels.
    pub fn lookup(self, name: &[u8]) -> &'a [u8]
        ensures { result.now ≡ body_of self.entry.index.now name.now }
    {
        let Some(list) = self.find(name) else {
            return &self.index[..0];
        };
        body_at(self.index, list)
    }
}
