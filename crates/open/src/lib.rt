// The table of the records that are still open, one inside the other: place 0 has the outermost. A lent slice with two thin functions over it,
// and no struct with methods: that is the form which the project names for it (docs/DECISIONS.md, "The right form for each place").
#![tactic(auto)]

ghost use Rattle.std.specs.Prelude.{◌<◌, length};
ghost use Rattle.open.specs.Entries.{Stored, Taken};

// A record that is still open: its numbers and its list.
#[derive(Clone, Copy, Default)]
pub struct Open {
    pub start: u32,
    pub end: u32,
    pub list: u32,
}

// The record goes to a place of the table.
pub fn push(table: &mut [Open], at: usize, o: Open)
    requires { at < length table.old }
    ensures { Stored table.old at o table.new }
{
    table[at] = o;
}

// The record at a place of the table: the innermost, once the one above it is closed.
pub fn pop(table: &[Open], at: usize) -> Open
    requires { at < length table.now }
    ensures { Taken table.now at result }
{
    table[at]
}
