// The reading of a path.
#![tactic(auto)]

ghost use Rattle.draft.specs.Drafts.{handed_on};
ghost use Rattle.draft.specs.Steps.{MayRead};
ghost use Rattle.path.specs.Reach.{PathRead};

use draft::{Broken, Draft, ends};

// Reads a path in `depth` brackets, whose first step hangs from step `hang`, or from nothing, and hands on the draft behind it.
pub fn read_path(
    text: &[u8],
    hang: Option<u16>,
    depth: u16,
    mut draft: Draft,
) -> Result<Draft, Broken>
    requires { MayRead text.now hang depth draft }
    ensures { PathRead text.now hang depth draft result }
{
    read_into(text, hang, depth, &mut draft)?;
    Ok(draft)
}

// The same with a draft that is lent, so that the brackets of a text have one. What falls from call to call is the bytes left.
fn read_into(text: &[u8], hang: Option<u16>, depth: u16, draft: &mut Draft) -> Result<(), Broken>
    requires { MayRead text.now hang depth draft.old }
    ensures { PathRead text.now hang depth draft.old (handed_on result draft.new) }
{
    draft.step(text, hang, depth)?;
    // How far a turn goes on depends on what it reads, so that nothing counts the turns: a `while`.
    while !ends(text, usize::from(draft.at)) {
        let me = draft.last;
        if text[usize::from(draft.at)] == b'[' {
            draft.at += 1;
            read_into(text, Some(me), depth + 1, draft)?;
            draft.leave(text, me)?;
        } else {
            draft.step(text, Some(me), depth)?;
        }
    }
    Ok(())
}
