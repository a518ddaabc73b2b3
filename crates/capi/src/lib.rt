// The operations for C and Rust, on words and bytes that the caller lends (docs/FORMAT.md, "Operations"). An answer is
// a struct of plain numbers: number is 0 where nothing is refused, and what an answer does not say is 0. The crate
// capi_c exports them to C.
#![tactic(auto)]

ghost use Rattle.std.specs.Prelude.{◌≡◌, length};
ghost use Rattle.template.specs.Template.{template_says};
ghost use Rattle.counts.specs.Fit.{FitSays};
ghost use Rattle.script.specs.Script.{script_says, card_links};
ghost use Rattle.typing.specs.Calls.{LargestSays, SmallestSays, BothSays};
ghost use Rattle.typing.specs.Judge.{JudgeSays};
ghost use Rattle.typing.specs.Tidy.{TidySays};
ghost use Rattle.capi.specs.Numbers.{Tells, TellsBoth, template_numbers, fit_numbers, script_numbers};
ghost use Rattle.capi.specs.Numbers.{largest_numbers, smallest_numbers, judge_numbers, written_numbers, copied};

use both::both_typings;
use calls::{largest, smallest};
use counts::fit_counts;
use script::{links_of_card, read_script};
use template::read_template;
use tidy::tidy_bookings;
use verdict::judge;
use words::{Card, Refusal, Shape};

// A template's counts of kinds and of shapes; or a refusal's number and place.
#[repr(C)]
#[derive(Clone, Copy)]
pub struct PrepTemplate {
    pub number: u16,
    pub kinds: u16,
    pub shapes: u16,
    pub place: usize,
}

// Whether counts fit, 1 or 0; or a refusal's number and place.
#[repr(C)]
#[derive(Clone, Copy)]
pub struct PrepFit {
    pub number: u16,
    pub fits: u16,
    pub place: usize,
}

// A script's counts of cards and of links; or a refusal's number and place.
#[repr(C)]
#[derive(Clone, Copy)]
pub struct PrepScript {
    pub number: u16,
    pub cards: u16,
    pub links: u16,
    pub place: usize,
}

// The largest typing's rounds, pairs struck and cards with some link and no shape; or a refusal's number and place.
#[repr(C)]
#[derive(Clone, Copy)]
pub struct PrepLargest {
    pub number: u16,
    pub place: usize,
    pub rounds: usize,
    pub struck: usize,
    pub bare: usize,
}

// The smallest typing's pairs; or 50 with a card and a shape; or another refusal's number and place.
#[repr(C)]
#[derive(Clone, Copy)]
pub struct PrepSmallest {
    pub number: u16,
    pub card: u16,
    pub shape: u16,
    pub place: usize,
    pub pairs: usize,
}

// The numbers of both typings; with 50 those of the largest, a card and a shape; or another refusal's number and place.
#[repr(C)]
#[derive(Clone, Copy)]
pub struct PrepBoth {
    pub number: u16,
    pub card: u16,
    pub shape: u16,
    pub place: usize,
    pub rounds: usize,
    pub struck: usize,
    pub bare: usize,
    pub pairs: usize,
}

// Nothing where a grid is accepted; or 62 with a card and a shape; or another refusal's number and place.
#[repr(C)]
#[derive(Clone, Copy)]
pub struct PrepJudge {
    pub number: u16,
    pub card: u16,
    pub shape: u16,
    pub place: usize,
}

// How many words or bytes were written; or a refusal's number and place.
#[repr(C)]
#[derive(Clone, Copy)]
pub struct PrepWritten {
    pub number: u16,
    pub place: usize,
    pub written: usize,
}

// Read a template.
pub fn prep_read_template(template: &[u16]) -> PrepTemplate
    ensures { Tells (λ said. said ≡ template_says template.now) (template_numbers result) }
{
    match read_template(template) {
        Ok(sizes) => PrepTemplate {
            number: 0,
            kinds: sizes.kinds,
            shapes: sizes.shapes,
            place: 0,
        },
        Err(Refusal(fault, place)) => PrepTemplate {
            number: fault.number(),
            kinds: 0,
            shapes: 0,
            place,
        },
    }
}

// Fit counts.
pub fn prep_fit_counts(template: &[u16], shape: u16, counts: &[u16]) -> PrepFit
    ensures { Tells (FitSays template.now shape counts.now) (fit_numbers result) }
{
    match fit_counts(template, Shape(shape), counts) {
        Ok(fits) => PrepFit {
            number: 0,
            fits: u16::from(fits),
            place: 0,
        },
        Err(Refusal(fault, place)) => PrepFit {
            number: fault.number(),
            fits: 0,
            place,
        },
    }
}

// Read a script.
pub fn prep_read_script(template: &[u16], script: &[u16]) -> PrepScript
    ensures { Tells (λ said. said ≡ script_says template.now script.now) (script_numbers result) }
{
    match read_script(template, script) {
        Ok(sizes) => PrepScript {
            number: 0,
            cards: sizes.cards,
            links: sizes.links,
            place: 0,
        },
        Err(Refusal(fault, place)) => PrepScript {
            number: fault.number(),
            cards: 0,
            links: 0,
            place,
        },
    }
}

// Copies words from the start of one slice to another, as many as both have. Word by word, since the library asks for
// memset alone: `copy_from_slice` is compiled to memmove.
fn copy(from: &[u16], to: &mut [u16])
    ensures { to.new ≡ copied from.now to.old }
{
    let mut i = 0;
    while i < to.len() {
        if from.len() <= i {
            return;
        }
        to[i] = from[i];
        i += 1;
    }
}

// Links of a card: copies as many of their words as there is room for, and returns how many they are.
pub fn prep_links_of_card(template: &[u16], script: &[u16], card: u16, links: &mut [u16]) -> usize
    ensures count { result ≡ length (card_links template.now script.now card) }
    ensures words { links.new ≡ copied (card_links template.now script.now card) links.old }
{
    let part = links_of_card(template, script, Card(card));
    copy(part, links);
    part.len()
}

// Largest.
pub fn prep_largest(template: &[u16], script: &[u16], grid: &mut [u8]) -> PrepLargest
    ensures { Tells (LargestSays template.now script.now grid.old grid.new) (largest_numbers result) }
{
    match largest(template, script, grid) {
        Ok(found) => PrepLargest {
            number: 0,
            place: 0,
            rounds: found.rounds,
            struck: found.struck,
            bare: found.bare,
        },
        Err(Refusal(fault, place)) => PrepLargest {
            number: fault.number(),
            place,
            rounds: 0,
            struck: 0,
            bare: 0,
        },
    }
}

// Smallest, of the desk's bookings.
pub fn prep_smallest(
    template: &[u16],
    script: &[u16],
    bookings: &[u16],
    desk: u16,
    grid: &mut [u8],
) -> PrepSmallest
    ensures { Tells (SmallestSays template.now script.now bookings.now desk grid.old grid.new)
        (smallest_numbers result) }
{
    match smallest(template, script, bookings, desk, grid) {
        Ok(Ok(pairs)) => PrepSmallest {
            number: 0,
            card: 0,
            shape: 0,
            place: 0,
            pairs,
        },
        Ok(Err((card, shape))) => PrepSmallest {
            number: 50,
            card: card.0,
            shape: shape.0,
            place: 0,
            pairs: 0,
        },
        Err(Refusal(fault, place)) => PrepSmallest {
            number: fault.number(),
            card: 0,
            shape: 0,
            place,
            pairs: 0,
        },
    }
}

// Both typings, the smallest of the desk's bookings.
pub fn prep_both_typings(
    template: &[u16],
    script: &[u16],
    bookings: &[u16],
    desk: u16,
    small: &mut [u8],
    large: &mut [u8],
) -> PrepBoth
    ensures { TellsBoth (BothSays template.now script.now bookings.now desk
        (record { small = small.old; large = large.old })
        (record { small = small.new; large = large.new })) result }
{
    match both_typings(template, script, bookings, desk, small, large) {
        Ok(found) => {
            let large = found.largest;
            match found.smallest {
                Ok(pairs) => PrepBoth {
                    number: 0,
                    card: 0,
                    shape: 0,
                    place: 0,
                    rounds: large.rounds,
                    struck: large.struck,
                    bare: large.bare,
                    pairs,
                },
                Err((card, shape)) => PrepBoth {
                    number: 50,
                    card: card.0,
                    shape: shape.0,
                    place: 0,
                    rounds: large.rounds,
                    struck: large.struck,
                    bare: large.bare,
                    pairs: 0,
                },
            }
        }
        Err(Refusal(fault, place)) => PrepBoth {
            number: fault.number(),
            card: 0,
            shape: 0,
            place,
            rounds: 0,
            struck: 0,
            bare: 0,
            pairs: 0,
        },
    }
}

// Judge a grid, by the desk's bookings.
pub fn prep_judge(
    template: &[u16],
    script: &[u16],
    bookings: &[u16],
    desk: u16,
    grid: &[u8],
) -> PrepJudge
    ensures { Tells (JudgeSays template.now script.now bookings.now desk grid.now) (judge_numbers result) }
{
    match judge(template, script, bookings, desk, grid) {
        Ok(Ok(())) => PrepJudge {
            number: 0,
            card: 0,
            shape: 0,
            place: 0,
        },
        Ok(Err((card, shape))) => PrepJudge {
            number: 62,
            card: card.0,
            shape: shape.0,
            place: 0,
        },
        Err(Refusal(fault, place)) => PrepJudge {
            number: fault.number(),
            card: 0,
            shape: 0,
            place,
        },
    }
}

// Tidy bookings.
pub fn prep_tidy_bookings(
    template: &[u16],
    script: &[u16],
    bookings: &[u16],
    out: &mut [u16],
) -> PrepWritten
    ensures { Tells (TidySays template.now script.now bookings.now out.old out.new) (written_numbers result) }
{
    match tidy_bookings(template, script, bookings, out) {
        Ok(written) => PrepWritten {
            number: 0,
            place: 0,
            written,
        },
        Err(Refusal(fault, place)) => PrepWritten {
            number: fault.number(),
            place,
            written: 0,
        },
    }
}
