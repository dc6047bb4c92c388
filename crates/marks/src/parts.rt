// Where the array of what is remembered holds what; only this file says where it stands. First the sets (crate `sets`): for a process, from whom a
// message waits for it; for 0, for whom one waits at all. Behind them each process has a number, and so has 0; and each group of receivers has one.
ghost use Rattle.std.specs.Prelude.{◌≡◌, ◌≤◌, ◌<◌};
ghost use Rattle.tables.specs.Table.{most_processes};
ghost use Rattle.marks.specs.Marks.{groups, count_at, group_at, group_of};

// Receivers whose links with a message are counted together, and so many groups of them.
pub const GROUP: usize = 16;

pub const GROUPS: usize = 8;

// Where the numbers of the groups begin.
pub const GROUPS_AT: usize = sets::SETS_SIZE + tables::SIDE;

pub const MEMORY_SIZE: usize = GROUPS_AT + GROUPS;

// How many links to p hold a message.
pub fn count_at(p: usize) -> usize
    requires { p ≤ most_processes }
    ensures { result ≡ count_at p }
{
    sets::SETS_SIZE + p
}

// How many links to the receivers of group g hold a message, for g from 0 on.
pub fn group_at(g: usize) -> usize
    requires { g < groups }
    ensures { result ≡ group_at g }
{
    GROUPS_AT + g
}

// The group of a receiver.
pub fn group_of(b: usize) -> usize
    requires { 1 ≤ b }
    ensures { result ≡ group_of b }
{
    (b - 1) / GROUP
}
