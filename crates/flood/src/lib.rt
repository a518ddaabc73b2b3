// The search forwards over pairs of a card and a shape: from the pairs that are queued, along the links of what is
// found, from a card and to it. It is linear in links times shapes.
#![tactic(auto)]

ghost use Rattle.std.specs.Prelude.{◌≡◌, ◌/◌};
ghost use Rattle.bags.specs.Label.{outgoing, incoming as arriving};
ghost use Rattle.board.specs.Work.{work, Swept};
ghost use Rattle.typing.specs.Needs.{Needs};
ghost use Rattle.walks.specs.Walks.{Leaving, Arriving};
ghost use Rattle.walks.specs.Entries.{EntryGood, LedGood};
ghost use Rattle.flood.specs.Follows.{LedAsked, LeavingAsked, ArrivingAsked, PairAsked};
ghost use Rattle.flood.specs.Follows.{LedCardAsked, FloodAsked, FloodReady, Followed};

use board::{Queue, list_off, strike_one};
use walks::{Walk, guessed_card, reciprocal, scaled_card};
use words::{Chain, MAX_KINDS, MAX_LABELS};

// Strikes the pair of the card at `base` that an entry names, if it names one.
fn strike_entry(entry: u8, base: usize, grid: &mut [u8], queue: &mut Queue)
    requires { LedAsked entry base (work grid.old queue.old) }
    ensures { Swept (EntryGood entry base) (work grid.old queue.old) (work grid.new queue.new) }
{
    let number = usize::from(entry);
    if number != 0 {
        strike_one(grid, queue, base + (number - 1));
    }
}

// Strikes what the links lo up to hi lead to, by the entries that a row has for their kinds.
fn follow_leaving(walk: &Walk, row: &[u8], lo: usize, hi: usize, grid: &mut [u8], queue: &mut Queue)
    requires { LeavingAsked walk.now.script.now row.now walk.now.shapes lo hi (work grid.old queue.old) }
    ensures { Swept (Leaving (LedGood outgoing walk.now.script.now row.now walk.now.shapes) lo hi)
        (work grid.old queue.old) (work grid.new queue.new) }
{
    let script = walk.script;
    for i in lo..hi {
        let kind = usize::from(script[3 + 3 * i]);
        let to = usize::from(script[4 + 3 * i]);
        strike_entry(row[kind], to * walk.shapes, grid, queue);
    }
}

// Strikes what the links to card m lead back to, by the entries that a row has for their kinds. One function for this
// and the one above would take a way, and tell a range from a chain by it.
fn follow_arriving(walk: &Walk, row: &[u8], m: usize, grid: &mut [u8], queue: &mut Queue)
    requires { ArrivingAsked walk.now.script.now walk.now.first.now walk.now.next.now row.now walk.now.shapes m
        (work grid.old queue.old) }
    ensures { Swept (Arriving walk.now.script.now m (LedGood arriving walk.now.script.now row.now walk.now.shapes))
        (work grid.old queue.old) (work grid.new queue.new) }
{
    let script = walk.script;
    for i in Chain::new(walk.first[m], walk.next) {
        let from = usize::from(script[2 + 3 * i]);
        let kind = usize::from(script[3 + 3 * i]);
        strike_entry(row[kind], from * walk.shapes, grid, queue);
    }
}

// The card of the pair at place q, the next one. A pair that is alone in the queue was found by the pair before, of
// card `last`: the last link from that card is likely to lead to its card. Where `last` has no link, the word read is
// the end of an earlier link or, before the first, the number of links: any word will do, as `guessed_card` tests it.
fn led_card(walk: &Walk, factor: usize, alone: bool, last: usize, q: usize) -> usize
    requires { LedCardAsked walk.now.script.now walk.now.starts.now walk.now.shapes factor last q }
    ensures { result ≡ q / walk.now.shapes }
{
    if alone {
        let end = usize::from(walk.starts[last + 1]);
        return guessed_card(q, walk.shapes, usize::from(walk.script[1 + 3 * end]));
    }
    scaled_card(q, factor)
}

// Strikes what the pair at place q, of card n, needs: what the links from its card lead to, and, where shapes name
// incoming kinds, what the links to it lead back to.
fn follow_pair(walk: &Walk, n: usize, q: usize, grid: &mut [u8], queue: &mut Queue)
    requires { PairAsked walk.now n q (work grid.old queue.old) }
    ensures { Swept (Needs walk.now.script.now walk.now.names.now walk.now.shapes q)
        (work grid.old queue.old) (work grid.new queue.new) }
{
    let base = (q - n * walk.shapes) * MAX_LABELS;
    let half = base + MAX_KINDS;
    let lo = usize::from(walk.starts[n]);
    let hi = usize::from(walk.starts[n + 1]);
    follow_leaving(walk, &walk.names[base..half], lo, hi, grid, queue);
    if walk.incoming {
        let row = &walk.names[half..half + MAX_KINDS];
        follow_arriving(walk, row, n, grid, queue);
    }
}

// Follows the links from the pairs that are queued, those that are 0 in the grid: what is then 0 is their closure, and
// the queue has all of it.
fn flood_from(walk: &Walk, grid: &mut [u8], queue: &mut Queue)
    requires { FloodAsked walk.now grid.old queue.old }
    ensures { Followed walk.now.script.now walk.now.names.now walk.now.shapes grid.old grid.new queue.new.len }
{
    let factor = reciprocal(walk.shapes);
    let mut head = 0;
    let mut last = 0;
    // the queue grows while it is gone along, so no range has its end
    while head < queue.len {
        let q = queue.at(head);
        let n = led_card(walk, factor, head + 1 == queue.len, last, q);
        follow_pair(walk, n, q, grid, queue);
        last = n;
        head += 1;
    }
}

// Follows the links from the pairs that are 0 in the grid: what is then 0 is their closure. Its number of pairs. They
// are queued in a buffer that is lent, whatever it held.
pub fn flood(walk: &Walk, grid: &mut [u8], room: &mut [u16]) -> usize
    requires { FloodReady walk.now grid.old room.old }
    ensures { Followed walk.now.script.now walk.now.names.now walk.now.shapes grid.old grid.new result }
{
    let mut queue = Queue::new(room);
    list_off(grid, &mut queue);
    flood_from(walk, grid, &mut queue);
    queue.len
}
