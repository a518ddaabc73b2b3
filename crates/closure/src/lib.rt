// The closure of the bookings in a grid, for the smallest typing, and its lowest pair that does not fit.
#![tactic(auto)]

ghost use Rattle.std.specs.Prelude.{◌≡◌, length};
ghost use Rattle.closure.specs.Closing.{MarkAsked, Marked, CloseAsked, Closes, UnfitAsked, UnfitFound};

use board::{fill, first_missing, flip};
use bookings::{card_at, desk_at, shape_at};
use flood::flood;
use walks::{Walk, pair_place};
use words::{Card, Shape};

// Turns the pairs of a desk's bookings off in a grid that has every pair.
fn mark_bookings(
    bookings: &[u16],
    count: u16,
    desk: u16,
    cards: usize,
    shapes: usize,
    grid: &mut [u8],
)
    requires { MarkAsked bookings.now count cards shapes grid.old }
    ensures { Marked bookings.now desk shapes count grid.new
        × (length grid.new ≡ length grid.old) }
{
    for i in 0..usize::from(count) {
        if desk_at(bookings, i) == desk {
            let card = card_at(bookings, i);
            let shape = shape_at(bookings, i);
            grid[pair_place(card, shapes, shape)] = 0;
        }
    }
}

// Writes the closure of a desk's bookings into the grid, whatever it held, and returns its number of pairs. The search
// queues them in a buffer that is lent. The list and its count come apart, since the struct that has both, with the
// sheet, is of a crate above.
pub fn close(
    walk: &Walk,
    bookings: &[u16],
    count: u16,
    desk: u16,
    cards: usize,
    grid: &mut [u8],
    room: &mut [u16],
) -> usize
    requires { CloseAsked walk.now bookings.now count cards grid.old room.old }
    ensures { Closes walk.now.script.now walk.now.names.now walk.now.shapes bookings.now desk count
        grid.new result }
{
    fill(grid, 1);
    mark_bookings(bookings, count, desk, cards, walk.shapes, grid);
    let found = flood(walk, grid, room);
    flip(grid);
    found
}

// Finds the lowest pair of a closure that does not fit. The grid stays where there is none, and is else all 0.
pub fn first_unfit(grid: &mut [u8], fitting: &[u8], shapes: usize) -> Option<(Card, Shape)>
    requires { UnfitAsked grid.old fitting.now shapes }
    ensures { UnfitFound grid.old fitting.now shapes grid.new result }
{
    let p = first_missing(grid, fitting)?;
    fill(grid, 0);
    Some((Card((p / shapes) as u16), Shape((p % shapes) as u16)))
}
