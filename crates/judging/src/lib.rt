// What is wrong with a grid: its lowest pair that is not met under it, and the first booking that it does not hold.
#![tactic(auto)]

ghost use Rattle.std.specs.Prelude.{true, ◌↔◌, ◌≡◌, ℕ, ◌+◌, ◌*◌, ◌<◌, length};
ghost use Rattle.words.specs.First.{FirstFound};
ghost use Rattle.bags.specs.Label.{Way, outgoing, incoming as arriving};
ghost use Rattle.script.specs.Link.{far_at};
ghost use Rattle.board.specs.Grid.{on};
ghost use Rattle.bookings.specs.Bookings.{card_at, shape_at};
ghost use Rattle.walks.specs.Walks.{Leaving, Arriving, HasAll};
ghost use Rattle.judging.specs.Judging.{LinkGood, LinkTested, LeavingTested, ArrivingTested, met, GridAsked, MetAsked};
ghost use Rattle.judging.specs.Judging.{Failing, PairAsked, HeldAsked, Missing};

use bookings::{card_at, desk_at, shape_at};
use walks::{Walk, pair_place};
use words::{Chain, MAX_KINDS, MAX_LABELS};

// A grid and what it is judged by: the links and the names of what a search goes by, and which pairs' counts fit.
#[derive(Clone, Copy)]
struct Judged<'a> {
    walk: Walk<'a>,
    fitting: &'a [u8],
    grid: &'a [u8],
}

impl<'a> Judged<'a> {
    // Whether the grid has what link i makes good for a card: its pair with the shape that a row names for the link's
    // kind, if it names one.
    fn link_had(&self, row: &[u8], i: usize, card: usize) -> bool
        requires { LinkTested self.now row.now i card }
        ensures { (way : Way) → card ≡ far_at way self.now.walk.script.now i
            → (result ≡ true) ↔ HasAll (on self.now.grid.now) (LinkGood way self.now row.now i) }
    {
        let kind = usize::from(self.walk.script[3 + 3 * i]);
        match row[kind].checked_sub(1) {
            None => true,
            Some(shape) => self.grid[card * self.walk.shapes + usize::from(shape)] == 1,
        }
    }

    // Whether the grid has what the links lo up to hi make good for the cards that they lead to.
    fn leaving_had(&self, row: &[u8], lo: usize, hi: usize) -> bool
        requires { LeavingTested self.now row.now lo hi }
        ensures { (result ≡ true) ↔ HasAll (on self.now.grid.now) (Leaving (LinkGood outgoing self.now row.now) lo hi) }
    {
        for i in lo..hi {
            if !self.link_had(row, i, usize::from(self.walk.script[4 + 3 * i])) {
                return false;
            }
        }
        true
    }

    // Whether the grid has what the links to card m make good for the cards that they start at.
    fn arriving_had(&self, row: &[u8], m: usize) -> bool
        requires { ArrivingTested self.now row.now m }
        ensures { (result ≡ true) ↔ HasAll (on self.now.grid.now)
            (Arriving self.now.walk.script.now m (LinkGood arriving self.now row.now)) }
    {
        for i in Chain::new(self.walk.first[m], self.walk.next) {
            if !self.link_had(row, i, usize::from(self.walk.script[2 + 3 * i])) {
                return false;
            }
        }
        true
    }

    // Whether the pair at a place is met under the grid: its counts fit, and the grid has what the links from its card
    // ask for and, where shapes name incoming kinds, what those to it ask for.
    fn pair_met(&self, place: usize) -> bool
        requires { MetAsked self.now place }
        ensures { result ≡ met self.now place }
    {
        if self.fitting[place] != 1 {
            return false;
        }
        let n = place / self.walk.shapes;
        let base = place % self.walk.shapes * MAX_LABELS;
        let half = base + MAX_KINDS;
        let lo = usize::from(self.walk.starts[n]);
        let hi = usize::from(self.walk.starts[n + 1]);
        if !self.leaving_had(&self.walk.names[base..half], lo, hi) {
            return false;
        }
        if self.walk.incoming {
            let row = &self.walk.names[half..half + MAX_KINDS];
            return self.arriving_had(row, n);
        }
        true
    }
}

// Finds the lowest pair of the grid that is not met under it.
pub fn first_unmet(walk: &Walk, fitting: &[u8], grid: &[u8]) -> Option<usize>
    requires { GridAsked walk.now fitting.now grid.now }
    ensures { FirstFound (Failing walk.now.script.now walk.now.names.now walk.now.shapes fitting.now grid.now)
        (length grid.now) result }
{
    let judged = Judged {
        walk: *walk,
        fitting,
        grid,
    };
    (0..grid.len()).find(|place| grid[*place] == 1 && !judged.pair_met(*place))
}

#[tactic(auto, unfolding(board::specs::Grid::on))]
// Whether the grid has the pair of booking i.
fn is_held(bookings: &[u16], i: usize, shapes: usize, grid: &[u8]) -> bool
    requires { PairAsked bookings.now i shapes grid.now }
    ensures { result ≡ on grid.now
        (card_at bookings.now i * shapes + shape_at bookings.now i) }
{
    let card = card_at(bookings, i);
    let shape = shape_at(bookings, i);
    grid[pair_place(card, shapes, shape)] == 1
}

// Finds the first of so many bookings that is the desk's and that the grid does not hold.
pub fn first_unheld(
    bookings: &[u16],
    count: u16,
    desk: u16,
    shapes: usize,
    grid: &[u8],
) -> Option<usize>
    requires { HeldAsked bookings.now count shapes grid.now }
    ensures { FirstFound (Missing bookings.now desk shapes grid.now) count result }
{
    (0..usize::from(count)).find(|i| desk_at(bookings, *i) == desk
        && !is_held(bookings, *i, shapes, grid))
}
