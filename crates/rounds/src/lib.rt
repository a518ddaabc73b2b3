// The search backwards over pairs of a card and a shape, for the largest typing: from the pairs whose counts do not
// fit, rounds of strikes, until one strikes nothing. It is linear in links times shapes.
#![tactic(auto)]

ghost use Rattle.std.specs.Prelude.{◌≡◌, ◌/◌};
ghost use Rattle.rounds.specs.Rounds.{SourceCardAsked, RoundsAsked, StrikeAsked, StrikesLeft};

use board::{Queue, list_off};
use strikes::{HALF_TABLE, NameIndex, strike_needing};
use tally::Tally;
use walks::{Walk, guessed_card, reciprocal, scaled_card};
use words::MAX_KINDS;

// The card of the pair at place q, the next one. A pair that is alone in the queue was struck by the pair before, of
// card `last`: the last link to that card is likely to start at its card.
fn source_card(walk: &Walk, factor: usize, alone: bool, last: usize, q: usize) -> usize
    requires { SourceCardAsked walk.now.script.now walk.now.first.now walk.now.shapes factor last q }
    ensures { result ≡ q / walk.now.shapes }
{
    if alone {
        let at = usize::from(walk.first[last]);
        if 0 < at {
            return guessed_card(q, walk.shapes, usize::from(walk.script[3 * at - 1]));
        }
    }
    scaled_card(q, factor)
}

// Strikes rounds from the pairs in the grid, those whose counts fit, until one strikes nothing; the others are queued.
// Links are looked at from both ends where there is an index of incoming names. The tally has the rounds that are
// closed; the one at the end is closed like the others. Inlined, the loop has no test for that index.
#[inline(always)]
fn strike_rounds(
    walk: &Walk,
    outgoing: &NameIndex,
    incoming: Option<&NameIndex>,
    grid: &mut [u8],
    queue: &mut Queue,
) -> Tally
    requires { RoundsAsked walk.now outgoing.now incoming grid.old queue.old }
    ensures { StrikesLeft walk.now.script.now walk.now.names.now walk.now.shapes
        grid.old grid.new result.rounds result.struck }
{
    let factor = reciprocal(walk.shapes);
    let mut tally = Tally {
        rounds: 0,
        struck: 0,
    };
    let mut head = 0;
    let mut last = 0;
    // the queue grows while it is gone along, so no range has its end
    while head < queue.len {
        tally.at_head(head, queue.len);
        let q = queue.at(head);
        let m = source_card(walk, factor, head + 1 == queue.len, last, q);
        strike_needing(walk, outgoing, incoming, m, q, grid, queue);
        last = m;
        head += 1;
    }
    tally.close_round(queue.len);
    tally
}

// Strikes rounds from a grid that has the pairs whose counts fit, until one strikes nothing. The incoming names are
// indexed where some shape names one. The pairs struck are queued in a buffer that is lent, whatever it held.
pub fn strike_all(walk: &Walk, grid: &mut [u8], room: &mut [u16]) -> Tally
    requires { StrikeAsked walk.now grid.old room.old }
    ensures { StrikesLeft walk.now.script.now walk.now.names.now walk.now.shapes
        grid.old grid.new result.rounds result.struck }
{
    let mut named = [0u16; HALF_TABLE];
    let mut alike = [0u16; HALF_TABLE];
    let outgoing = NameIndex::new(walk.names, 0, walk.shapes, &mut named, &mut alike);
    let mut queue = Queue::new(room);
    list_off(grid, &mut queue);
    if walk.incoming {
        let mut inward = [0u16; HALF_TABLE];
        let mut inalike = [0u16; HALF_TABLE];
        let incoming = NameIndex::new(
            walk.names,
            MAX_KINDS,
            walk.shapes,
            &mut inward,
            &mut inalike,
        );
        return strike_rounds(walk, &outgoing, Some(&incoming), grid, &mut queue);
    }
    strike_rounds(walk, &outgoing, None, grid, &mut queue)
}
