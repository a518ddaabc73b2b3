// The two searches on a sheet whose pairs are tested: what they leave is the largest typing, and the smallest that
// holds a desk's bookings.
#![tactic(auto)]

ghost use Rattle.sheet.specs.Sheet.{Sheet};
ghost use Rattle.bookings.specs.Bookings.{Booked};
ghost use Rattle.typing.specs.Answer.{struck_said, settled_said};
ghost use Rattle.typing.specs.Calls.{LargestFound, SmallestFound};
ghost use Rattle.pairs.specs.Pairs.{TestedAs};
ghost use Rattle.searches.specs.Searches.{StrikesAsked, SettleAsked};

use bare::count_bare;
use closure::{close, first_unfit};
use lent::ListedSheet;
use links::CardLinks;
use pairs::walk_of;
use rounds::strike_all;
use sheet::ReadSheet;
use typing::{Settled, Struck};
use words::MAX_GRID;

// Strikes rounds from a grid that has the pairs whose counts fit: it then has the largest typing. Each search queues
// pairs in a buffer that is lent, whatever it held, so that a call with several searches fills only one with zeros.
pub fn strike(
    sheet: &ReadSheet,
    links: &CardLinks,
    grid: &mut [u8],
    room: &mut [u16; MAX_GRID],
) -> Struck
    requires { StrikesAsked sheet.now links.now grid.old }
    ensures { (s : Sheet) → TestedAs s sheet.now grid.old → LargestFound s grid.new (struck_said result) }
{
    let walk = walk_of(sheet, links);
    let tally = strike_all(&walk, grid, room);
    let bare = count_bare(sheet.script, sheet.extent, grid);
    Struck {
        rounds: tally.rounds,
        struck: tally.struck,
        bare,
    }
}

// Writes into the grid what follows from a desk's bookings, whatever it held, and tests whether each pair of it fits:
// the grid then has the smallest typing, or is all 0.
pub fn settle(
    listed: &ListedSheet,
    links: &CardLinks,
    desk: u16,
    fitting: &[u8],
    grid: &mut [u8],
    room: &mut [u16; MAX_GRID],
) -> Settled
    requires { SettleAsked listed.now links.now fitting.now grid.old }
    ensures { (s : Sheet) → TestedAs s listed.now.sheet fitting.now
        → SmallestFound s (Booked listed.now.bookings.now desk) grid.new (settled_said result) }
{
    let walk = walk_of(&listed.sheet, links);
    let cards = usize::from(listed.sheet.extent.cards);
    let found = close(
        &walk,
        listed.bookings,
        listed.count,
        desk,
        cards,
        grid,
        room,
    );
    match first_unfit(grid, fitting, walk.shapes) {
        None => Ok(found),
        Some(pair) => Err(pair),
    }
}
