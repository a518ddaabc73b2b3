// Reading a script (a graph): its cards (nodes) and links (edges), and the links of a card.
#![tactic(auto)]

ghost use Rattle.std.specs.Prelude.{◌≡◌, ℕ, suc, ◌+◌, ◌*◌};
ghost use Rattle.words.specs.Reading.{Reading, accepted, said_of};
ghost use Rattle.script.specs.Link.{greater, above, below};
ghost use Rattle.script.specs.Answer.{script_said};
ghost use Rattle.script.specs.Script.{ScriptCounts, counts_of, read_links, read_script, script_values, script_says};
ghost use Rattle.script.specs.Script.{card_links, links_start};
ghost use Rattle.script.specs.Steps.{after_link, LinkIn, LinksIn, Ascending, PartAsked, CardPart};

use template::read_template;
use words::{Card, Fault, MAX_CARDS, MAX_LINKS, Refusal};

// A script's counts of cards and of links.
#[derive(Clone, Copy)]
pub struct ScriptSizes {
    pub cards: u16,
    pub links: u16,
}

// Whether link i is above link j: by its from, then its kind, then its to. Word by word: of a comparison of tuples it
// was not proved that it is this order.
fn is_greater(script: &[u16], i: usize, j: usize) -> bool
    requires link_in { LinkIn script.now i }
    requires link_in_2 { LinkIn script.now j }
    ensures { result ≡ greater script.now i j }
{
    let from = script[2 + 3 * i];
    let other_from = script[2 + 3 * j];
    if from != other_from {
        return other_from < from;
    }
    let kind = script[3 + 3 * i];
    let other_kind = script[3 + 3 * j];
    if kind != other_kind {
        return other_kind < kind;
    }
    let to = script[4 + 3 * i];
    let other_to = script[4 + 3 * j];
    other_to < to
}

// Whether link i is above the link before it; the first has none before it.
fn is_above(script: &[u16], i: usize) -> bool
    requires { LinkIn script.now i }
    ensures { result ≡ above script.now i }
{
    if i == 0 {
        return true;
    }
    is_greater(script, i, i - 1)
}

// Tests one link, in the format's order: 23 from, 24 kind, 23 to, 25 its place among the links.
fn test_link(kinds: u16, cards: u16, script: &[u16], i: usize) -> Result<(), Refusal>
    requires { LinkIn script.now i }
    ensures { (n : ℕ) (done : Reading ScriptCounts) →
        read_links kinds cards script.now (suc n) i done
        ≡ after_link result (read_links kinds cards script.now n (suc i) done) }
{
    if cards <= script[2 + 3 * i] {
        return Err(Refusal(Fault::LinkCard, 2 + 3 * i));
    }
    if kinds <= script[3 + 3 * i] {
        return Err(Refusal(Fault::LinkKind, 3 + 3 * i));
    }
    if cards <= script[4 + 3 * i] {
        return Err(Refusal(Fault::LinkCard, 4 + 3 * i));
    }
    if !is_above(script, i) {
        return Err(Refusal(Fault::LinkOrder, 2 + 3 * i));
    }
    Ok(())
}

// Tests the links one by one: the counts, or the first refusal.
fn read_links(kinds: u16, cards: u16, links: u16, script: &[u16]) -> Result<ScriptSizes, Refusal>
    requires { LinksIn script.now 0 links }
    ensures { script_said result
        ≡ said_of script_values
        (read_links kinds cards script.now links 0 (accepted (counts_of cards links))) }
{
    for i in 0..usize::from(links) {
        test_link(kinds, cards, script, i)?;
    }
    Ok(ScriptSizes { cards, links })
}

// Reads a script under a template that has so many kinds.
pub fn read_with_kinds(kinds: u16, script: &[u16]) -> Result<ScriptSizes, Refusal>
    ensures { script_said result ≡ said_of script_values (read_script kinds script.now) }
{
    if script.len() < 2 {
        return Err(Refusal(Fault::ScriptLength, 0));
    }
    let cards = script[0];
    if MAX_CARDS < usize::from(cards) {
        return Err(Refusal(Fault::CardCount, 0));
    }
    let links = script[1];
    if MAX_LINKS < usize::from(links) {
        return Err(Refusal(Fault::LinkCount, 1));
    }
    if script.len() != 2 + 3 * usize::from(links) {
        return Err(Refusal(Fault::ScriptLength, 0));
    }
    read_links(kinds, cards, links, script)
}

// Reads a script with a template: the template's refusals come first.
pub fn read_script(template: &[u16], script: &[u16]) -> Result<ScriptSizes, Refusal>
    ensures { script_said result ≡ script_says template.now script.now }
{
    let sizes = read_template(template)?;
    read_with_kinds(sizes.kinds, script)
}

// How many of the links start at a card below `card`: a binary search by hand, since the list is no slice of links but
// of three words to each.
fn count_below(script: &[u16], links: usize, card: usize) -> usize
    requires { Ascending script.now links }
    ensures { result ≡ below script.now card links }
{
    let mut lo = 0;
    let mut hi = links;
    while lo < hi {
        let mid = lo + (hi - lo) / 2;
        if usize::from(script[2 + 3 * mid]) < card {
            lo = mid + 1;
        } else {
            hi = mid;
        }
    }
    lo
}

// The links that start at a card, which lie side by side, as a part of an ascending script.
fn card_part(script: &[u16], links: usize, card: usize) -> &[u16]
    requires { PartAsked script.now links card }
    ensures { CardPart script.entry links card result }
{
    let start = count_below(script, links, card);
    let end = count_below(script, links, card + 1);
    &script[2 + 3 * start..2 + 3 * end]
}

// The links of one card, as the part of the script that holds them: where it is empty, the readings tell why.
pub fn links_of_card<'t, 's>(template: &'t [u16], script: &'s [u16], card: Card) -> &'s [u16]
    ensures list { result.now ≡ card_links template.now script.now card.0 }
    ensures lent { result.ref_ptr.0 ≡ script.entry.ref_ptr.0 }
    ensures place { result.ref_ptr.1
        ≡ links_start template.now script.now card.0 * 2 + script.entry.ref_ptr.1 }
{
    let none = &script[0..0];
    match read_script(template, script) {
        Ok(sizes) if card.0 < sizes.cards => card_part(
            script,
            usize::from(sizes.links),
            usize::from(card.0),
        ),
        Ok(_) => none,
        Err(_) => none,
    }
}
