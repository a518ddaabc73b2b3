// Where the links of a card stand, each index built in one pass: those from it have a start, those to it a chain.
ghost use Rattle.std.specs.Prelude.{ℕ, ◌+◌, ◌≡◌};
ghost use Rattle.script.specs.Link.{card_words, below};
ghost use Rattle.links.specs.Index.{StartsOf, StartsAsked, SkipAsked, LeavingOf, LeavingLinksAsked};
ghost use Rattle.links.specs.Index.{ChainAsked, ChainLeft};

// Where the links to each card stand: one more than the last of them, and of each link one more than the one before it
// to the same card; 0 where there is none. Both are empty where no link to a card is looked at.
#[derive(Clone, Copy)]
pub struct Chains<'a> {
    pub first: &'a [u16],
    pub next: &'a [u16],
}

// Where each card's links stand: where those from it start, and those to it.
#[derive(Clone, Copy)]
pub struct CardLinks<'a> {
    pub starts: &'a [u16],
    pub chains: Chains<'a>,
}

// The first link from link `from` on that does not start at a card below `card`.
fn skip_below(script: &[u16], links: usize, card: usize, from: usize) -> usize
    requires { SkipAsked script.now links card from }
    ensures { result ≡ below script.now card links }
{
    for i in from..links {
        if card <= usize::from(script[2 + 3 * i]) {
            return i;
        }
    }
    links
}

// Where the links of each card start: `starts[c]` is how many start at a card below c. The links of c end where those
// of c + 1 start.
pub fn link_starts(script: &[u16], links: usize, cards: usize, starts: &mut [u16])
    requires { StartsAsked script.now links cards starts.old }
    ensures { StartsOf script.now starts.new cards links }
{
    let mut i = 0;
    for c in 0..=cards {
        i = skip_below(script, links, c, i);
        starts[c] = i as u16;
    }
}

// The links from card n, as a part of the script, by the table of starts.
pub fn leaving_links<'s, 't>(script: &'s [u16], starts: &'t [u16], n: usize) -> &'s [u16]
    requires { LeavingLinksAsked script.now starts.now n }
    ensures { (links : ℕ) → LeavingOf script.now starts.now (n + 1) links →
        result.now ≡ card_words script.now n links }
{
    let lo = 2 + 3 * usize::from(starts[n]);
    let hi = 2 + 3 * usize::from(starts[n + 1]);
    &script[lo..hi]
}

// Chains the links by the cards that they lead to: `first[m]` is one more than the last link to card m, or 0, and
// `next[i]` one more than the last link before link i to the same card, or 0.
#[tactic(auto, unfolding(script::specs::Link::to_at))]
pub fn chain(script: &[u16], links: usize, first: &mut [u16], next: &mut [u16])
    requires { ChainAsked script.now links first.old next.old }
    ensures { ChainLeft script.now links first.old next.old
        first.new next.new }
{
    for i in 0..links {
        let to = usize::from(script[4 + 3 * i]);
        next[i] = first[to];
        first[to] = (i + 1) as u16;
    }
}
