// The least of up to MOST_TAGS numbers, kept while they change: after one of them has changed, only the nodes above it are played again.
#![tactic(auto)]

ghost use Rattle.std.specs.Prelude.{ℕ, ◌≡◌, ◌+◌, ◌*◌, ◌%◌, ◌<◌, ◌≤◌, length, replicate, slice_set};
ghost use Rattle.meaning.specs.Limits.{most_tags};
ghost use Rattle.meaning.specs.Bytes.{at};
ghost use Rattle.tournament.specs.Tournament.{Tree, SameLeaves, Least, nodes};

use meaning::Index;
use std::marker::Model;

// How many places a tournament has.
const NODES: usize = 2 * Index::MOST_TAGS;

// Where the least number stands.
const ROOT: usize = 1;

// What stands for none. Below it there are MOST_TAGS numbers for each number of 32 bits. It is a number and no `Option`, since it plays like any
// other: each node compares two words, and would compare two pairs. (In a constant `as` widens, where `u64::from` can't be called.)
pub const PAST: u64 = (u32::MAX as u64 + 1) * (Index::MOST_TAGS as u64);

// A tournament of numbers. With m players they stand at nodes m to 2m - 1, and node i, from 1 to m - 1, holds the lesser of nodes 2i and 2i + 1.
// Memory is fixed, so that the nodes are an array with the number of players beside it.
#[derive(Drop)]
pub struct Tournament {
    nodes: [u64; NODES],
    players: usize,
}

// Clauses see the numbers that play. That every node holds the lesser of its two is true of each tournament.
impl Model for Tournament {
    ghost use Rattle.std.specs.Prelude.{ℕ, List};
    ghost use Rattle.tournament.specs.Tournament.{leaves, Bracket};

    ghost Value = { List ℕ };

    ghost view = { λ t. leaves t.players t.nodes };

    ghost invariant = { λ t. Bracket t.players t.nodes };
}

// The node that plays against node i: a function of its own, since its contract is the fact on which `put` rests.
fn beside(i: usize) -> usize
    ensures { result + 2 * (i % 2) ≡ i + 1 }
{
    i ^ 1
}

// Plays all nodes, from the last to the root.
fn play(tree: &mut [u64; NODES], m: usize)
    requires { m ≤ most_tags }
    ensures tree { Tree m tree.new }
    ensures leaves { SameLeaves m tree.old tree.new }
{
    for i in (1..m).rev() {
        let left = tree[2 * i];
        let right = tree[2 * i + 1];
        tree[i] = left.min(right);
    }
}

impl Tournament {
    // A tournament in which each number is 0, for `fill`: it is filled where it stands, since to move what is so large is to copy it.
    pub fn blank(players: usize) -> Tournament
        requires { players ≤ most_tags }
        ensures { result ≡ replicate players 0 }
    {
        Tournament {
            nodes: [0; NODES],
            players,
        }
    }

    // Each player has the number that `number` gives for it, and all nodes are played.
    pub fn fill<F: Fn(usize) -> u64>(&mut self, number: F)
        requires { (j : ℕ) → j < length self.old → F.pre number j }
        ensures many { length self.new ≡ length self.old }
        ensures each { (j : ℕ) → j < length self.old → F.post number j (at self.new j) }
    {
        let players = self.players;
        for j in 0..players {
            self.nodes[players + j] = number(j);
        }
        play(&mut self.nodes, players);
    }

    // The tournament in which these numbers play.
    pub fn new(numbers: &[u64]) -> Tournament
        requires { length numbers.now ≤ most_tags }
        ensures { result ≡ numbers.now }
    {
        let mut filled = Tournament::blank(numbers.len());
        filled.fill(|j| numbers[j]);
        filled
    }

    // A tournament of the same numbers, which goes its own way from here.
    pub fn copy(&self) -> Tournament
        ensures { result ≡ self.now }
    {
        Tournament {
            nodes: self.nodes,
            players: self.players,
        }
    }

    // The least of all numbers; where none plays it is PAST.
    pub fn least(&self) -> u64
        ensures { Least self.now result }
    {
        if self.players == 0 {
            return PAST;
        }
        self.nodes[ROOT]
    }

    // Player `player` has `number` now, the nodes above it are played again, and the answer is the least of all.
    pub fn put(&mut self, player: usize, number: u64) -> u64
        requires { player < length self.old }
        ensures set { self.new ≡ slice_set self.old player number }
        ensures least { Least self.new result }
    {
        let mut i = self.players + player;
        // Node i's number, kept here so that no level waits for what the one below it stored.
        let mut best = number;
        self.nodes[i] = best;
        // The way up halves i each time: no range goes by halves, and a chain of them would be no plainer.
        while 1 < i {
            let sibling = self.nodes[beside(i)];
            best = best.min(sibling);
            i = i / 2;
            self.nodes[i] = best;
        }
        best
    }
}
