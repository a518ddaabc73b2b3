// What is struck by one pair: the pairs that need it, by the links to its card and by those from it.
ghost use Rattle.std.specs.Prelude.{◌+◌, ◌*◌};
ghost use Rattle.bags.specs.Label.{outgoing as leaving, incoming as arriving};
ghost use Rattle.board.specs.Work.{work, Swept};
ghost use Rattle.typing.specs.Needs.{Needs};
ghost use Rattle.walks.specs.Walks.{Leaving, Arriving};
ghost use Rattle.strikes.specs.Strikes.{NamedGood, NamedAsked, NeedGood, SourcesAsked, TargetsAsked};
ghost use Rattle.strikes.specs.Strikes.{NeedingAsked};

use crate::index::{NameIndex, name_key};
use board::{Queue, strike_one};
use walks::Walk;
use words::{Chain, Kind, MAX_KINDS, Shape};

// Strikes the pairs of a card whose shape names u for a kind of the index's half. Grid and queue are lent apart here
// and below: in one struct each call would lend both again.
fn strike_named(
    walk: &Walk,
    index: &NameIndex,
    kind: Kind,
    card: usize,
    u: Shape,
    grid: &mut [u8],
    queue: &mut Queue,
)
    requires { NamedAsked walk.now.names.now walk.now.shapes index.now kind.0 (card * walk.now.shapes) u.0
        (work grid.old queue.old) }
    ensures { Swept (NamedGood walk.now.names.now walk.now.shapes (index.now.start + kind.0)
        (card * walk.now.shapes) u.0)
        (work grid.old queue.old) (work grid.new queue.new) }
{
    let base = card * walk.shapes;
    let key = name_key(kind, u);
    for p in Chain::new(index.first[key], index.next) {
        strike_one(grid, queue, base + p / MAX_KINDS);
    }
}

// Strikes the pairs at the start of a link to card m that need the shape u there, by the outgoing names.
pub fn strike_sources(
    walk: &Walk,
    index: &NameIndex,
    m: usize,
    u: Shape,
    grid: &mut [u8],
    queue: &mut Queue,
)
    requires { SourcesAsked walk.now index.now m u.0 (work grid.old queue.old) }
    ensures { Swept (Arriving walk.now.script.now m
        (NeedGood leaving walk.now.script.now walk.now.names.now walk.now.shapes u.0))
        (work grid.old queue.old) (work grid.new queue.new) }
{
    let script = walk.script;
    for i in Chain::new(walk.first[m], walk.next) {
        let from = usize::from(script[2 + 3 * i]);
        let kind = Kind(script[3 + 3 * i]);
        strike_named(walk, index, kind, from, u, grid, queue);
    }
}

// Strikes the pairs at the end of one of the links lo up to hi, all from one card, that need the shape u there: by the
// incoming names. One function for this and the one above would take a way, and tell a range from a chain by it.
fn strike_targets(
    walk: &Walk,
    index: &NameIndex,
    lo: usize,
    hi: usize,
    u: Shape,
    grid: &mut [u8],
    queue: &mut Queue,
)
    requires { TargetsAsked walk.now index.now lo hi u.0 (work grid.old queue.old) }
    ensures { Swept (Leaving (NeedGood arriving walk.now.script.now walk.now.names.now walk.now.shapes u.0) lo hi)
        (work grid.old queue.old) (work grid.new queue.new) }
{
    let script = walk.script;
    for i in lo..hi {
        let kind = Kind(script[3 + 3 * i]);
        let to = usize::from(script[4 + 3 * i]);
        strike_named(walk, index, kind, to, u, grid, queue);
    }
}

// Strikes what needs the pair at place q, of card m: by the links to its card, and, where some shape names an incoming
// kind, by those from it: there is an index of such names.
pub fn strike_needing(
    walk: &Walk,
    outgoing: &NameIndex,
    incoming: Option<&NameIndex>,
    m: usize,
    q: usize,
    grid: &mut [u8],
    queue: &mut Queue,
)
    requires { NeedingAsked walk.now outgoing.now incoming m q (work grid.old queue.old) }
    ensures { Swept (λ p. Needs walk.now.script.now walk.now.names.now walk.now.shapes p q)
        (work grid.old queue.old) (work grid.new queue.new) }
{
    let u = Shape((q - m * walk.shapes) as u16);
    strike_sources(walk, outgoing, m, u, grid, queue);
    if let Some(index) = incoming {
        let lo = usize::from(walk.starts[m]);
        let hi = usize::from(walk.starts[m + 1]);
        strike_targets(walk, index, lo, hi, u, grid, queue);
    }
}
