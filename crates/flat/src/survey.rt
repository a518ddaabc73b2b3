// Whether a part is flat, and where its links stand.
ghost use Rattle.std.specs.Prelude.{◌<◌, ◌≡◌, SomeIff};
ghost use Rattle.bags.specs.Part.{Part};
ghost use Rattle.flat.specs.Places.{Standing, SurveyAsked, SurveyedAs};
ghost use Rattle.flat.specs.Places.{code_size, LinkRoom, EnterAsked, entered, must_at};

// How many words a code takes with what belongs to it: nothing 1, all 2, a link 4; the codes of other parts have no
// size here.
#[tactic(auto, unfolding(crate::specs::Places::code_size))]
fn code_size(code: u16) -> Option<usize>
    ensures { SomeIff result (0 < code_size code) (code_size code) }
{
    match code {
        0 => Some(1),
        17 => Some(2),
        256..=383 => Some(4),
        _ => None,
    }
}

// Enters the place of the link that stands there, if it is one.
fn enter(words: &[u16], at: usize, places: &mut [u16])
    requires { EnterAsked words.now at places.old }
    ensures { places.new ≡ entered words.now at places.old }
{
    let code = words[at];
    if 256 <= code {
        places[usize::from(code - 256)] = at as u16;
    }
}

// 1 if a link stands at the place that must be there, that is, whose low is above 0; else 0.
#[tactic(auto, unfolding(crate::specs::Places::must_at, board::specs::Grid::bit))]
fn must_at(words: &[u16], at: usize) -> usize
    requires { LinkRoom words.now at }
    ensures { result ≡ must_at words.now at }
{
    usize::from(256 <= words[at] && 0 < words[at + 2])
}

// Goes over the words of a part, from `core` to `end`, and enters where the link of each label stands. How many links
// must be there, if the part is flat; other parts are not looked into. The places are all 0 before.
pub fn survey_part(words: &[u16], core: usize, end: usize, places: &mut [u16]) -> Option<usize>
    requires { SurveyAsked words.now core end places.old }
    ensures { (p : Part) → Standing words.now core end p →
        SurveyedAs words.now p places.new result }
{
    let mut at = core;
    let mut needed = 0;
    // a cursor: each step's width depends on the code at it
    while at < end {
        let size = code_size(words[at])?;
        enter(words, at, places);
        needed += must_at(words, at);
        at += size;
    }
    Some(needed)
}
