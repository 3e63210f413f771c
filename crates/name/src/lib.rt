// The characters of a name, and how far a name reaches in a text.
#![tactic(auto)]

ghost use Rattle.std.specs.Prelude.{◌≡◌, ◌≤◌, length};
ghost use Rattle.std.specs.List.{prefix_len};
ghost use Rattle.meaning.specs.Names.{initial, further};
ghost use Rattle.name.specs.Runs.{name_run};

// Whether a name may begin with c: an ASCII letter or `_`.
#[tactic(auto, unfolding(meaning::specs::Names::initial))]
pub fn may_begin(c: u8) -> bool
    ensures { result ≡ initial c }
{
    matches!(c, b'A'..=b'Z' | b'a'..=b'z' | b'_')
}

// Whether a name may go on with c: what may begin it, a digit, `-` or `.`.
#[tactic(auto, unfolding(meaning::specs::Names::further))]
pub fn may_follow(c: u8) -> bool
    ensures { result ≡ further c }
{
    may_begin(c) || matches!(c, b'0'..=b'9' | b'-' | b'.')
}

// How many bytes of s, from its first on, may stand behind a name's first.
fn further_run(s: &[u8]) -> usize
    ensures counts { result ≡ prefix_len further s.now }
    ensures within { result ≤ length s.now }
{
    s.iter().take_while(|c| may_follow(**c)).count()
}

// How many bytes of s, from its first on, may be a name; 0 where the first may not begin one. It may be more than a name has.
#[tactic(auto, using(crate::proofs::RunLaws::begins, crate::proofs::RunLaws::begins_not, crate::proofs::RunLaws::begins_empty))]
pub fn name_run(s: &[u8]) -> usize
    ensures { result ≡ name_run s.now }
{
    match s.split_first() {
        Some((first, rest)) if may_begin(*first) => 1 + further_run(rest),
        _ => 0,
    }
}
