// Little endian numbers in bytes, and the labels of a body.
#![tactic(auto)]

ghost use Rattle.std.specs.Prelude.{◌≡◌, ◌+◌, ◌*◌, ◌<◌, ◌≤◌, length};
ghost use Rattle.meaning.specs.Bytes.{u16_at, u32_at};
ghost use Rattle.meaning.specs.Day.{label_at};
ghost use Rattle.label.specs.Started.{Ascends, Between, Started};

use meaning::Label;

// The 16-bit number whose two bytes begin at `at`.
#[tactic(auto, unfolding(meaning::specs::Bytes::u16_at))]
pub fn u16_at(s: &[u8], at: usize) -> u32
    requires { at + 2 ≤ length s.now }
    ensures value { result ≡ u16_at s.now at }
    ensures fits { result < 65536 }
{
    u32::from(u16::from_le_bytes([s[at], s[at + 1]]))
}

// The 32-bit number whose four bytes begin at `at`.
#[tactic(auto, unfolding(meaning::specs::Bytes::u32_at))]
pub fn u32_at(s: &[u8], at: usize) -> u32
    requires { at + 4 ≤ length s.now }
    ensures value { result ≡ u32_at s.now at }
    ensures fits { result < 4294967296 }
{
    u32::from_le_bytes([s[at], s[at + 1], s[at + 2], s[at + 3]])
}

// The three that follow ask for one bound, and no struct holds it: it would be made anew at each call, for one read, and say what the clause says.

// The start of label i of the body that begins at `at`.
pub fn start_at(s: &[u8], at: usize, i: usize) -> u32
    requires { at + 8 * i + 8 ≤ length s.now }
    ensures value { result ≡ (label_at s.now at i).start }
    ensures fits { result < 4294967296 }
{
    u32_at(s, at + Label::BYTES * i)
}

// The end of label i of the body that begins at `at`.
pub fn end_at(s: &[u8], at: usize, i: usize) -> u32
    requires { at + 8 * i + 8 ≤ length s.now }
    ensures value { result ≡ (label_at s.now at i).end }
    ensures fits { result < 4294967296 }
{
    u32_at(s, at + Label::BYTES * i + Label::END_AT)
}

// Label i of the body that begins at `at`.
pub fn label_at(s: &[u8], at: usize, i: usize) -> Label
    requires { at + 8 * i + 8 ≤ length s.now }
    ensures { result ≡ label_at s.now at i }
{
    Label {
        start: start_at(s, at, i),
        end: end_at(s, at, i),
    }
}

// The start of a label, of which the bytes are given.
fn start_of(label: &[u8; Label::BYTES]) -> u32
    ensures { result ≡ u32_at label.now 0 }
{
    u32_at(label, 0)
}

// How many of the n labels of the body that begins at `at` start at or before `v`, where that is a number from `low` to `high`. They ascend
// by start, so that those between are halved. A search looks at starts alone, and never at an end.
fn halved(s: &[u8], at: usize, n: usize, v: u32, low: usize, high: usize) -> usize
    requires room { at + 8 * n ≤ length s.now }
    requires ascends { Ascends s.now at n }
    requires between { Between s.now at n v low high }
    ensures { Started s.now at n v result }
{
    let bytes = &s[at + Label::BYTES * low..at + Label::BYTES * high];
    let (between, _) = bytes.as_chunks::<{ Label::BYTES }>();
    let settled = between.partition_point(|label| start_of(label) <= v);
    low + settled
}

// How many of the n labels of the body that begins at `at` start at or before `v`, where the first `from` do. Mostly it is few more: so the
// next label is looked at first, then one as far again from there each time, until one starts after `v` or the list ends. Between the last
// two the number is found by halving. (No iterator's steps grow by what was found, so this loop is a `while`.)
pub fn started_from(s: &[u8], at: usize, n: usize, from: usize, v: u32) -> usize
    requires room { at + 8 * n ≤ length s.now }
    requires ascends { Ascends s.now at n }
    requires between { Between s.now at n v from n }
    ensures { Started s.now at n v result }
{
    let mut low = from;
    let mut high = from;
    while high < n && start_at(s, at, high) <= v {
        low = high + 1;
        high = low + (high - from);
    }
    halved(s, at, n, v, low, high.min(n))
}
