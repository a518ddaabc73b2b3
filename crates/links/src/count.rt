// How many links of each kind a card has: those from it are counted off as they come, those to it along their chain.
ghost use Rattle.std.specs.Prelude.{ℕ, ◌+◌, ◌*◌, ◌≡◌, List};
ghost use Rattle.links.specs.Index.{CountArrivingAsked, ArrivingCounted};
ghost use Rattle.links.specs.Runs.{KindsPassed, RunAsked, RunOf, CountOnAsked, CountOf};

use words::Chain;

// How many of a card's links, sorted by kind, are of the kind of the link whose kind stands at the place `at`, from
// there on.
pub fn run_length(links: &[u16], at: usize, kind: u16) -> usize
    requires { RunAsked links.now at kind }
    ensures { (first : ℕ) → at ≡ 1 + 3 * first → RunOf links.now first kind result }
{
    let mut count = 1;
    for link in at / 3 + 1..links.len() / 3 {
        if links[1 + 3 * link] != kind {
            return count;
        }
        count += 1;
    }
    count
}

// A kind that was counted, how many of a card's links have it, and the place of a link's kind: no link before it has a
// kind above that one.
#[derive(Clone, Copy)]
pub struct KindCount {
    pub next: usize,
    pub kind: u16,
    pub count: u16,
}

// Where to start counting a kind: where the kind before it ended, or at the first link.
fn start_of(before: KindCount, kind: u16) -> usize
    ensures { (links : List ℕ) → KindsPassed links (before.kind + 1) before.next →
        KindsPassed links kind result }
{
    if before.kind < kind { before.next } else { 1 }
}

// How many of a card's links, sorted by kind, have a kind. The first kind above it is the end of them.
pub fn count_on(links: &[u16], before: KindCount, kind: u16) -> KindCount
    requires { CountOnAsked links.now before }
    ensures { CountOf links.now kind result }
{
    let start = start_of(before, kind);
    let mut count = 0;
    for link in start / 3..links.len() / 3 {
        let next = 1 + 3 * link;
        if kind <= links[next] {
            if kind < links[next] {
                return KindCount { next, kind, count };
            }
            count += 1;
        }
    }
    let next = links.len() + 1;
    KindCount { next, kind, count }
}

// How many of the links to a card have each kind. The counts are all 0 before.
#[tactic(auto, unfolding(script::specs::Link::kind_at))]
pub fn count_arriving(
    script: &[u16],
    first: &[u16],
    next: &[u16],
    links: usize,
    card: usize,
    counts: &mut [u16],
)
    requires { CountArrivingAsked script.now first.now next.now links card counts.old }
    ensures { ArrivingCounted script.now links card counts.old counts.new }
{
    for i in Chain::new(first[card], next) {
        let kind = usize::from(script[3 + 3 * i]);
        counts[kind] += 1;
    }
}
