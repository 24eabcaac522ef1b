// Functions that only the crates of this repository call. Most have a `requires`: the caller, proved too, meets it.
pub mod walk;

ghost use Rattle.std.specs.Prelude.{◌≡◌, ◌-◌, ◌<◌, ◌≤◌};
ghost use Rattle.book.specs.Level.{level_number};
ghost use Rattle.tree.specs.Blocks.{level};

use book::svq1_blocktree::Svq1Level;

// The level of block i.
pub fn level_of(i: usize) -> Svq1Level
    ensures { level_number result ≡ level i }
{
    match i {
        0 => Svq1Level::L5,
        1..=2 => Svq1Level::L4,
        3..=6 => Svq1Level::L3,
        7..=14 => Svq1Level::L2,
        15..=30 => Svq1Level::L1,
        _ => Svq1Level::L0,
    }
}
