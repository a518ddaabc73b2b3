// The calls for the two typings of a script: the largest that it allows, and the smallest that holds the bookings.
// A call reads what it is lent, and takes a few steps on the sheet that is read: test the pairs, strike rounds, settle
// the bookings. These are a function of their own, with `_of` to the call's name.
#![tactic(auto)]

ghost use Rattle.sheet.specs.Sheet.{Sheet};
ghost use Rattle.bookings.specs.Bookings.{Booked};
ghost use Rattle.typing.specs.Answer.{largest_said, smallest_said, struck_said, settled_said};
ghost use Rattle.typing.specs.Calls.{LargestFound, LargestSays, SmallestFound, SmallestSays};
ghost use Rattle.lent.specs.Readings.{TwoGrids};
ghost use Rattle.pairs.specs.Pairs.{SheetGrid, ReadsTo};
ghost use Rattle.calls.specs.Lent.{SmallestLent};

use lent::{ListedSheet, grid_size, list_sheet, read_lent};
use links::{CardLinks, Chains};
use pairs::{STARTS, chain_arrivals, test_pairs};
use searches::{settle, strike};
use sheet::{ReadSheet, read_sheet};
use typing::{Settled, Struck};
use words::{Fault, MAX_CARDS, MAX_GRID, MAX_LINKS, Refusal, TABLE_SIZE};

// The largest typing of a sheet that is read, in a grid of its size.
fn largest_of(sheet: &ReadSheet, grid: &mut [u8]) -> Struck
    requires { SheetGrid sheet.now grid.old }
    ensures { (s : Sheet) → ReadsTo sheet.now s → LargestFound s grid.new (struck_said result) }
{
    let mut first = [0u16; MAX_CARDS];
    let mut next = [0u16; MAX_LINKS];
    chain_arrivals(sheet.script, sheet.extent, &mut first, &mut next);
    let chains = Chains {
        first: &first,
        next: &next,
    };
    let mut starts = [0u16; STARTS];
    test_pairs(sheet, &chains, &mut starts, grid);
    let links = CardLinks {
        starts: &starts,
        chains,
    };
    let mut room = [0u16; MAX_GRID];
    strike(sheet, &links, grid, &mut room)
}

// The smallest typing of a sheet and a desk's bookings that are read, in a grid of its size, by where the links to each
// card stand. The other grid of its size then has the pairs whose counts fit.
fn smallest_by(
    listed: &ListedSheet,
    chains: &Chains,
    desk: u16,
    fitting: &mut [u8],
    grid: &mut [u8],
) -> Settled
    requires { SmallestLent listed.now chains.now desk grid.old fitting.old }
    ensures { (s : Sheet) → ReadsTo listed.now.sheet s
        → SmallestFound s (Booked listed.now.bookings.now desk) grid.new (settled_said result) }
{
    let mut starts = [0u16; STARTS];
    test_pairs(&listed.sheet, chains, &mut starts, fitting);
    let links = CardLinks {
        starts: &starts,
        chains: *chains,
    };
    let mut room = [0u16; MAX_GRID];
    settle(listed, &links, desk, fitting, grid, &mut room)
}

// The same. The links to each card are chained where some shape names an incoming kind.
fn smallest_of(listed: &ListedSheet, desk: u16, fitting: &mut [u8], grid: &mut [u8]) -> Settled
    requires { TwoGrids listed.now desk grid.old fitting.old }
    ensures { (s : Sheet) → ReadsTo listed.now.sheet s
        → SmallestFound s (Booked listed.now.bookings.now desk) grid.new (settled_said result) }
{
    let sheet = &listed.sheet;
    if sheet.extent.incoming {
        let mut first = [0u16; MAX_CARDS];
        let mut next = [0u16; MAX_LINKS];
        chain_arrivals(sheet.script, sheet.extent, &mut first, &mut next);
        let chains = Chains {
            first: &first,
            next: &next,
        };
        return smallest_by(listed, &chains, desk, fitting, grid);
    }
    let none = Chains {
        first: &[],
        next: &[],
    };
    smallest_by(listed, &none, desk, fitting, grid)
}

// Largest: rounds, pairs struck and cards with some link and no shape, and the typing in the grid.
pub fn largest(template: &[u16], script: &[u16], grid: &mut [u8]) -> Result<Struck, Refusal>
    ensures { LargestSays template.now script.now grid.old grid.new
        (largest_said result) }
{
    let mut names = [0u8; TABLE_SIZE];
    let e = read_sheet(template, script, &mut names)?;
    if grid.len() != grid_size(e) {
        return Err(Refusal(Fault::BufferLength, 0));
    }
    let sheet = ReadSheet {
        template,
        script,
        names: &names,
        extent: e,
    };
    Ok(largest_of(&sheet, grid))
}

// Smallest: the number of pairs and the typing in the grid; or 50, the pair that is not met, and the grid all 0. The
// bookings are the desk's.
pub fn smallest(
    template: &[u16],
    script: &[u16],
    bookings: &[u16],
    desk: u16,
    grid: &mut [u8],
) -> Result<Settled, Refusal>
    ensures { SmallestSays template.now script.now bookings.now desk
        grid.old grid.new (smallest_said result) }
{
    let mut names = [0u8; TABLE_SIZE];
    let (e, count) = read_lent(template, script, bookings, desk, grid, &mut names)?;
    let size = grid_size(e);
    let mut fitting = [0u8; MAX_GRID];
    let pairs = &mut fitting[0..size];
    let listed = list_sheet(template, script, &names, e, bookings, count);
    Ok(smallest_of(&listed, desk, pairs, grid))
}
