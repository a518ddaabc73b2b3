// Cards whose links have the same kinds, in order. A table of marks names for each card an earlier one that may be
// like it, and comparing their kinds decides.
#![tactic(auto)]

ghost use Rattle.std.specs.Prelude.{ℕ, ◌+◌, ◌<◌, ◌≡◌, true};
ghost use Rattle.links.specs.Index.{LeavingOf};
ghost use Rattle.links.specs.Runs.{kinds_in};
ghost use Rattle.twins.specs.Twins.{marks, TwinAsked, TwinOf, TwinsAsked, TwinsLeft};

use links::leaving_links;

// How many marks there are.
const MARKS: usize = 1024;

// A mark of the kinds of a card's links: the same kinds have the same mark. Nothing rests on which it is.
fn mark_of(links: &[u16]) -> usize
    ensures { result < marks }
{
    let mut mark = 0;
    for next in (1..links.len()).step_by(3) {
        mark = (mark * 133 + usize::from(links[next]) + 1) % MARKS;
    }
    mark
}

// Whether the links of two cards are as many and have the same kinds, one by one.
fn same_kinds(a: &[u16], b: &[u16]) -> bool
    ensures { result ≡ true → (k : ℕ) → kinds_in a.now k ≡ kinds_in b.now k }
{
    if a.len() != b.len() {
        return false;
    }
    for at in (1..a.len()).step_by(3) {
        if a[at] != b[at] {
            return false;
        }
    }
    true
}

// The twin of card n: the earlier card that was seen, if there is one and its links have the same kinds; else card n
// itself.
fn twin_of(script: &[u16], starts: &[u16], seen: Option<u16>, n: usize) -> u16
    requires { TwinAsked script.now starts.now seen n }
    ensures { (links : ℕ) → LeavingOf script.now starts.now (n + 1) links →
        TwinOf script.now links n result }
{
    if let Some(m) = seen {
        let earlier = leaving_links(script, starts, usize::from(m));
        let own = leaving_links(script, starts, n);
        if same_kinds(earlier, own) {
            return m;
        }
    }
    n as u16
}

// Finds for each card an earlier one whose links have the same kinds, or the card itself. The table has for each mark
// one more than the last card with it, or 0.
pub fn find_twins(script: &[u16], starts: &[u16], cards: usize, twins: &mut [u16])
    requires { TwinsAsked script.now starts.now cards twins.old }
    ensures { TwinsLeft script.now starts.now cards twins.old
        twins.new }
{
    let mut last = [0u16; MARKS];
    for n in 0..cards {
        let own = leaving_links(script, starts, n);
        let mark = mark_of(own);
        twins[n] = twin_of(script, starts, last[mark].checked_sub(1), n);
        last[mark] = (n + 1) as u16;
    }
}
