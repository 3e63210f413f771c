// The lists' keys, which play the tournament: a list's next start and then the list, so that the least key names what comes next.
// A usize has no From to or from a u64, nor a u64 to a u32: each cast here is proved to lose nothing.
ghost use Rattle.std.specs.Prelude.{◌≡◌, ◌+◌, ◌*◌, ◌/◌, ◌%◌, ◌<◌};
ghost use Rattle.meaning.specs.Limits.{most_tags};
ghost use Rattle.tournament.specs.Tournament.{past};

use meaning::Index;

// How many keys there are for each start.
const LISTS: u64 = Index::MOST_TAGS as u64;

// The key of list r when its next label starts at `start`.
pub fn key(start: u32, r: usize) -> u64
    requires { r < most_tags }
    ensures { result ≡ most_tags * start + r }
{
    LISTS * u64::from(start) + r as u64
}

// The start that a key has.
pub fn start_of(key: u64) -> u32
    requires { key < past }
    ensures { result ≡ key / most_tags }
{
    (key / LISTS) as u32
}

// The list that a key names.
pub fn list_of(key: u64) -> usize
    ensures list { result ≡ key % most_tags }
    ensures within { result < most_tags }
{
    (key % LISTS) as usize
}
