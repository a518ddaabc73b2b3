// The typings of both desks in one call: the largest, and each desk's smallest. Each pair's counts are tested once.
#![tactic(auto)]

ghost use Rattle.sheet.specs.Sheet.{Sheet};
ghost use Rattle.typing.specs.Answer.{desks_said};
ghost use Rattle.typing.specs.Desks.{DesksFound, DesksSays};
ghost use Rattle.pairs.specs.Pairs.{ReadsTo, TestedAs};
ghost use Rattle.desks.specs.ThreeGrids.{ThreeGrids, DesksAsked, desks_of};

use lent::{ListedSheet, grid_size, list_sheet, read_booked};
use links::{CardLinks, Chains};
use pairs::{STARTS, chain_arrivals, test_pairs};
use searches::{settle, strike};
use typing::Desks;
use words::{Fault, MAX_CARDS, MAX_GRID, MAX_LINKS, Refusal, TABLE_SIZE};

// The typings of a sheet whose pairs are tested, as the last grid says: each desk's bookings are settled, 0 being
// radio's and 1 television's, and then rounds are struck in that grid.
fn desks_tested(
    listed: &ListedSheet,
    links: &CardLinks,
    radio: &mut [u8],
    television: &mut [u8],
    large: &mut [u8],
) -> Desks
    requires { DesksAsked listed.now links.now radio.old television.old large.old }
    ensures { (s : Sheet) → TestedAs s listed.now.sheet large.old
        → DesksFound s listed.now.bookings.now (record {
          radio = radio.exit.now;
          television = television.new;
          large = large.new;
        }) (desks_of result) }
{
    let mut room = [0u16; MAX_GRID];
    let one = settle(listed, links, 0, large, radio, &mut room);
    let other = settle(listed, links, 1, large, television, &mut room);
    let largest = strike(&listed.sheet, links, large, &mut room);
    Desks {
        largest,
        radio: one,
        television: other,
    }
}

// The typings of a sheet and bookings that are read, in grids of its size.
pub fn desks_of(
    listed: &ListedSheet,
    radio: &mut [u8],
    television: &mut [u8],
    large: &mut [u8],
) -> Desks
    requires { ThreeGrids listed.now radio.old television.old large.old }
    ensures { (s : Sheet) → ReadsTo listed.now.sheet s
        → DesksFound s listed.now.bookings.now (record {
          radio = radio.exit.now;
          television = television.new;
          large = large.new;
        }) (desks_of result) }
{
    let sheet = &listed.sheet;
    let mut first = [0u16; MAX_CARDS];
    let mut next = [0u16; MAX_LINKS];
    chain_arrivals(sheet.script, sheet.extent, &mut first, &mut next);
    let chains = Chains {
        first: &first,
        next: &next,
    };
    let mut starts = [0u16; STARTS];
    test_pairs(sheet, &chains, &mut starts, large);
    let links = CardLinks {
        starts: &starts,
        chains,
    };
    desks_tested(listed, &links, radio, television, large)
}

// Both desks: the largest typing and each desk's smallest, as the calls for them give them, and what holds of each two
// together.
pub fn desk_typings(
    template: &[u16],
    script: &[u16],
    bookings: &[u16],
    radio: &mut [u8],
    television: &mut [u8],
    large: &mut [u8],
) -> Result<Desks, Refusal>
    ensures { DesksSays template.now script.now bookings.now
        (record { radio = radio.entry.now; television = television.old; large = large.old })
        (record { radio = radio.exit.now; television = television.new; large = large.new })
        (desks_said result) }
{
    let mut names = [0u8; TABLE_SIZE];
    let (e, count) = read_booked(template, script, bookings, &mut names)?;
    let size = grid_size(e);
    if radio.len() != size || television.len() != size || large.len() != size {
        return Err(Refusal(Fault::BufferLength, 0));
    }
    let listed = list_sheet(template, script, &names, e, bookings, count);
    Ok(desks_of(&listed, radio, television, large))
}
