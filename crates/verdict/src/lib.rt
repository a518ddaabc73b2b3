// The verdict on a grid that another maker made: whether it is a sound typing that holds the bookings. The grid is only
// read.
#![tactic(auto)]

ghost use Rattle.sheet.specs.Sheet.{Sheet};
ghost use Rattle.typing.specs.Answer.{judge_said};
ghost use Rattle.typing.specs.Judge.{JudgeFound, JudgeSays};
ghost use Rattle.lent.specs.Readings.{ListedFor};
ghost use Rattle.pairs.specs.Pairs.{ReadsTo, TestedAs};
ghost use Rattle.verdict.specs.Judged.{JudgeLent, JudgeAsked};

use board::first_over;
use bookings::card_index;
use judging::{first_unheld, first_unmet};
use lent::{ListedSheet, list_sheet, read_lent};
use links::{CardLinks, Chains};
use pairs::{STARTS, chain_arrivals, test_pairs, walk_of};
use typing::Judged;
use words::{Card, Fault, MAX_CARDS, MAX_GRID, MAX_LINKS, Refusal, Shape, TABLE_SIZE};

// The verdict on a grid of zeros and ones where the sheet's pairs are tested: its lowest pair that is not met under it,
// then the desk's first booking that it does not hold.
fn judge_tested(
    listed: &ListedSheet,
    links: &CardLinks,
    desk: u16,
    fitting: &[u8],
    grid: &[u8],
) -> Result<Judged, Refusal>
    requires { JudgeAsked listed.now links.now fitting.now grid.now }
    ensures { (s : Sheet) → TestedAs s listed.now.sheet fitting.now
        → JudgeFound s listed.now.bookings.now desk grid.now (judge_said result) }
{
    let walk = walk_of(&listed.sheet, links);
    let shapes = walk.shapes;
    let unmet = first_unmet(&walk, fitting, grid);
    if let Some(place) = unmet {
        let card = (place / shapes) as u16;
        let shape = (place % shapes) as u16;
        return Ok(Err((Card(card), Shape(shape))));
    }
    match first_unheld(listed.bookings, listed.count, desk, shapes, grid) {
        Some(booking) => Err(Refusal(Fault::UnheldBooking, card_index(booking))),
        None => Ok(Ok(())),
    }
}

// The verdict on a grid of zeros and ones of the size of a sheet that is read, for a desk of a booking list that is
// read, by where the links to each card stand.
fn judge_by(
    listed: &ListedSheet,
    chains: &Chains,
    desk: u16,
    grid: &[u8],
) -> Result<Judged, Refusal>
    requires { JudgeLent listed.now chains.now desk grid.now }
    ensures { (s : Sheet) → ReadsTo listed.now.sheet s
        → JudgeFound s listed.now.bookings.now desk grid.now (judge_said result) }
{
    let mut starts = [0u16; STARTS];
    let mut fitting = [0u8; MAX_GRID];
    let pairs = &mut fitting[0..grid.len()];
    test_pairs(&listed.sheet, chains, &mut starts, pairs);
    let links = CardLinks {
        starts: &starts,
        chains: *chains,
    };
    judge_tested(listed, &links, desk, pairs, grid)
}

// The verdict on any grid of that size. The links to each card are chained where some shape names an incoming kind.
fn judge_of(listed: &ListedSheet, desk: u16, grid: &[u8]) -> Result<Judged, Refusal>
    requires { ListedFor listed.now desk grid.now }
    ensures { (s : Sheet) → ReadsTo listed.now.sheet s
        → JudgeFound s listed.now.bookings.now desk grid.now (judge_said result) }
{
    if let Some(over) = first_over(grid) {
        return Err(Refusal(Fault::GridByte, over));
    }
    let sheet = &listed.sheet;
    if sheet.extent.incoming {
        let mut first = [0u16; MAX_CARDS];
        let mut next = [0u16; MAX_LINKS];
        chain_arrivals(sheet.script, sheet.extent, &mut first, &mut next);
        let chains = Chains {
            first: &first,
            next: &next,
        };
        return judge_by(listed, &chains, desk, grid);
    }
    let none = Chains {
        first: &[],
        next: &[],
    };
    judge_by(listed, &none, desk, grid)
}

// Judge: accepted where the grid is a sound typing that holds the desk's bookings; or 62 and the lowest pair of it that
// is not met; or what else is refused.
pub fn judge(
    template: &[u16],
    script: &[u16],
    bookings: &[u16],
    desk: u16,
    grid: &[u8],
) -> Result<Judged, Refusal>
    ensures { JudgeSays template.now script.now bookings.now desk
        grid.now (judge_said result) }
{
    let mut names = [0u8; TABLE_SIZE];
    let (e, count) = read_lent(template, script, bookings, desk, grid, &mut names)?;
    let listed = list_sheet(template, script, &names, e, bookings, count);
    judge_of(&listed, desk, grid)
}
