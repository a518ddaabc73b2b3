// Both typings in one call: the largest, and the smallest for a desk. Each pair's counts are tested once.
#![tactic(auto)]

ghost use Rattle.std.specs.Prelude.{Ok};
ghost use Rattle.sheet.specs.Sheet.{Sheet};
ghost use Rattle.bookings.specs.Bookings.{Booked};
ghost use Rattle.typing.specs.Answer.{both_said};
ghost use Rattle.typing.specs.Calls.{BothFound, BothSays};
ghost use Rattle.lent.specs.Readings.{TwoGrids};
ghost use Rattle.pairs.specs.Pairs.{ReadsTo};

use lent::{ListedSheet, grid_size, list_sheet, read_lent};
use links::{CardLinks, Chains};
use pairs::{STARTS, chain_arrivals, test_pairs};
use searches::{settle, strike};
use typing::Both;
use words::{Fault, MAX_CARDS, MAX_GRID, MAX_LINKS, Refusal, TABLE_SIZE};

// Both typings of a sheet and a desk's bookings that are read, in grids of its size. A pair's counts are tested once.
fn both_of(listed: &ListedSheet, desk: u16, small: &mut [u8], large: &mut [u8]) -> Both
    requires { TwoGrids listed.now desk small.old large.old }
    ensures { (s : Sheet) → ReadsTo listed.now.sheet s
        → BothFound s (Booked listed.now.bookings.now desk) small.new large.new (both_said (Ok result)) }
{
    let sheet = &listed.sheet;
    let mut first = [0u16; MAX_CARDS];
    let mut next = [0u16; MAX_LINKS];
    chain_arrivals(sheet.script, sheet.extent, &mut first, &mut next);
    let chains = Chains {
        first: &first,
        next: &next,
    };
    let mut starts = [0u16; STARTS];
    test_pairs(sheet, &chains, &mut starts, large);
    let links = CardLinks {
        starts: &starts,
        chains,
    };
    let mut room = [0u16; MAX_GRID];
    let smallest = settle(listed, &links, desk, large, small, &mut room);
    let largest = strike(sheet, &links, large, &mut room);
    Both { largest, smallest }
}

// Both typings in one call: each as its own call gives it, and what holds of the two together.
pub fn both_typings(
    template: &[u16],
    script: &[u16],
    bookings: &[u16],
    desk: u16,
    small: &mut [u8],
    large: &mut [u8],
) -> Result<Both, Refusal>
    ensures { BothSays template.now script.now bookings.now desk
        (record { small = small.entry.now; large = large.old })
        (record { small = small.exit.now; large = large.new }) (both_said result) }
{
    let mut names = [0u8; TABLE_SIZE];
    let (e, count) = read_lent(template, script, bookings, desk, small, &mut names)?;
    if large.len() != grid_size(e) {
        return Err(Refusal(Fault::BufferLength, 0));
    }
    let listed = list_sheet(template, script, &names, e, bookings, count);
    Ok(both_of(&listed, desk, small, large))
}
