// The interval of a flat part for the links of a card: each kind is counted as its links come, the interval of its link
// is met into the result, and links that must be there are counted, not visited.
ghost use Rattle.std.specs.Prelude.{ℕ, ◌<◌, ◌≡◌};
ghost use Rattle.bags.specs.Part.{Part};
ghost use Rattle.links.specs.Runs.{amount};
ghost use Rattle.flat.specs.Places.{Surveyed};
ghost use Rattle.flat.specs.Meeting.{MeetAsked, KindsUnder, MetAs, demanded, LinkAsked, LinkMet, AllMet};
ghost use Rattle.flat.specs.Meeting.{LeavingAsked, LeavingAs, ArrivingAsked, ArrivingAs};

use bags::{Span, TOP, link_span, meet_span};
use links::run_length;
use words::MAX_LABELS;

// The interval so far, and how many of the links that must be there are.
#[derive(Clone, Copy)]
struct Found {
    span: Span,
    found: usize,
}

// The interval of the link at a place, for a count, met into another. There is no link at 0, as in the table of places,
// which is fixed memory; an Option would only be made and matched again at each step.
fn meet_link(words: &[u16], place: usize, count: u16, span: Span) -> Span
    requires { LinkAsked words.now place }
    ensures { LinkMet words.now place count span result }
{
    if place == 0 {
        return span;
    }
    meet_span(span, link_span(count, words[place + 2], words[place + 3]))
}

// 1 if the link at a place must be there, else 0; there is no link at 0.
#[tactic(auto, unfolding(crate::specs::Meeting::demanded, board::specs::Grid::bit))]
fn must(words: &[u16], place: usize) -> usize
    requires { LinkAsked words.now place }
    ensures { result ≡ demanded words.now place }
{
    usize::from(0 < place && 0 < words[place + 2])
}

// Goes along the links from a card, run by run; nothing if a closed shape does not name one of their kinds.
fn meet_leaving(words: &[u16], places: &[u16], is_open: bool, links: &[u16]) -> Option<Found>
    requires { LeavingAsked words.now places.now links.now }
    ensures { LeavingAs words.now places.now is_open links.now result }
{
    let mut span = Span { lo: 0, hi: TOP };
    let mut found = 0;
    let mut at = 1;
    // a cursor: each step's width depends on the run at it
    while at < links.len() {
        let kind = links[at];
        let place = usize::from(places[usize::from(kind)]);
        if place == 0 && !is_open {
            return None;
        }
        let count = run_length(links, at, kind);
        span = meet_link(words, place, count as u16, span);
        found += must(words, place);
        at += 3 * count;
    }
    Some(Found { span, found })
}

// The place of a label's link, but 0 if the label counts 0.
fn place_of(place: u16, count: u16) -> usize
    ensures none { count ≡ 0 → result ≡ 0 }
    ensures some { 0 < count → result ≡ place }
{
    if count == 0 {
        return 0;
    }
    usize::from(place)
}

// Goes along the counts of the last labels.
fn meet_arriving(words: &[u16], places: &[u16], arriving: &[u16], before: Found) -> Found
    requires { ArrivingAsked words.now places.now arriving.now before.found }
    ensures { ArrivingAs words.now places.now arriving.now before result }
{
    let mut span = before.span;
    let mut found = before.found;
    let first = MAX_LABELS - arriving.len();
    for (k, count) in arriving.iter().enumerate() {
        let place = place_of(places[first + k], *count);
        span = meet_link(words, place, *count, span);
        found += must(words, place);
    }
    Found { span, found }
}

// The interval of the part: where a link that must be there is not, no number above 0 is left.
fn all_met(needed: usize, met: Found) -> Span
    ensures { AllMet needed met.found met.span result }
{
    let span = met.span;
    if met.found < needed {
        return meet_span(span, Span { lo: 0, hi: 0 });
    }
    span
}

// The interval of a flat part for a card: its links in order, and the counts of the last labels; nothing if a closed
// shape does not name the kind of one of its links.
pub fn meet_card(
    words: &[u16],
    places: &[u16],
    is_open: bool,
    needed: usize,
    links: &[u16],
    arriving: &[u16],
) -> Option<Span>
    requires { MeetAsked words.now places.now links.now arriving.now }
    ensures { (p : Part) (kinds : ℕ) → Surveyed words.now p places.now needed →
        KindsUnder links.now kinds →
        MetAs is_open kinds p (amount links.now arriving.now) result }
{
    let leaving = meet_leaving(words, places, is_open, links)?;
    let both = meet_arriving(words, places, arriving, leaving);
    Some(all_met(needed, both))
}
