// The pairs of a sheet tested, and where its links stand.
#![tactic(auto)]

ghost use Rattle.std.specs.Prelude.{◌≡◌};
ghost use Rattle.pairs.specs.Pairs.{ArrivalsAsked, ArrivalsChained, TestAsked, PairsTested, walk_on};

use fits::fit_grid;
use links::{CardLinks, Chains, chain, link_starts};
use sheet::{Extent, ReadSheet};
use walks::Walk;
use words::{MAX_CARDS, MAX_LINKS};

// Where the links from each card start, and where those from the last end.
pub const STARTS: usize = MAX_CARDS + 1;

// Chains the links to each card, in arrays of zeros.
pub fn chain_arrivals(
    script: &[u16],
    e: Extent,
    first: &mut [u16; MAX_CARDS],
    next: &mut [u16; MAX_LINKS],
)
    requires { ArrivalsAsked script.now e first.old next.old }
    ensures { ArrivalsChained script.now e first.new next.new }
{
    chain(script, usize::from(e.links), first, next);
}

// Finds where the links from each card start, and tests each shape on each card: the grid has 1 where the counts fit,
// else 0. The links to each card are looked at where some shape names an incoming kind.
pub fn test_pairs(
    sheet: &ReadSheet,
    chains: &Chains,
    starts: &mut [u16; STARTS],
    fitting: &mut [u8],
)
    requires { TestAsked sheet.now chains.now fitting.old }
    ensures { PairsTested sheet.now starts.new chains.now fitting.new }
{
    link_starts(
        sheet.script,
        usize::from(sheet.extent.links),
        usize::from(sheet.extent.cards),
        starts,
    );
    let links = CardLinks {
        starts,
        chains: *chains,
    };
    fit_grid(sheet, &links, fitting);
}

// What a search on a sheet goes by.
pub fn walk_of<'a>(sheet: &ReadSheet<'a>, links: &CardLinks<'a>) -> Walk<'a>
    ensures { result ≡ walk_on sheet.now links.now }
{
    Walk {
        script: sheet.script,
        starts: links.starts,
        first: links.chains.first,
        next: links.chains.next,
        names: sheet.names,
        shapes: usize::from(sheet.extent.shapes),
        incoming: sheet.extent.incoming,
    }
}
