// A grid of bytes, 1 where a place is on, and a queue of places: what the searches for both typings do with them.
#![tactic(auto)]

ghost use Rattle.std.specs.Prelude.{◌≡◌, eqb, length, get_or, replicate, ◌<◌};
ghost use Rattle.words.specs.First.{FirstFound};
ghost use Rattle.board.specs.Grid.{on, tally};
ghost use Rattle.board.specs.Machine.{Flipped, MissingFound};

mod queue;

pub use queue::{Queue, list_off, strike_one};

// Gives every byte the same value.
pub fn fill(grid: &mut [u8], value: u8)
    ensures { grid.new ≡ replicate (length grid.old) value }
{
    grid.fill(value);
}

// Whether none of the places is on.
pub fn all_off(grid: &[u8]) -> bool
    ensures { result ≡ eqb (tally (on grid.now) (length grid.now)) 0 }
{
    !grid.contains(&1)
}

// Turns every place round: 0 where it was on, else 1.
#[tactic(auto, unfolding(crate::specs::Grid::on))]
pub fn flip(grid: &mut [u8])
    ensures { Flipped grid.old grid.new }
{
    for byte in grid.iter_mut() {
        *byte = u8::from(*byte != 1);
    }
}

// Finds the lowest place that is on in `wanted` and not in `had`, if there is one.
#[tactic(auto, unfolding(crate::specs::Grid::on))]
pub fn first_missing(wanted: &[u8], had: &[u8]) -> Option<usize>
    requires { length had.now ≡ length wanted.now }
    ensures { MissingFound wanted.now had.now result }
{
    wanted
        .iter()
        .zip(had)
        .position(|(wants, has)| *wants == 1 && *has != 1)
}

// Finds the first byte that is over 1, if there is one.
pub fn first_over(grid: &[u8]) -> Option<usize>
    ensures { FirstFound (λ p. 1 < get_or grid.now p 0) (length grid.now) result }
{
    grid.iter().position(|byte| 1 < *byte)
}
