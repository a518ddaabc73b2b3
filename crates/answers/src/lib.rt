// What the operations answer: lines, and the text of a sheet. Each function answers whether its end was written.
#![tactic(auto)]

use counts::fit_counts;
use printer::{TEXT_ROOM, print_sheet};
use script::{links_of_card, read_script};
use sections::{number, numbers, text};
use template::read_template;
use tidy::tidy_bookings;
use verdict::judge;
use words::{Card, Refusal, Shape};

// A word and two numbers.
fn pair(rt: &impl Print, word: &[u8], first: usize, second: usize) -> bool {
    text(rt, word);
    number(rt, first as u64);
    number(rt, second as u64);
    text(rt, b"\n")
}

fn refused(rt: &impl Print, refusal: Refusal) -> bool {
    pair(rt, b"refused", usize::from(refusal.0.number()), refusal.1)
}

// `counts KINDS SHAPES`, or `refused NUMBER PLACE`.
pub fn tell_template(rt: &impl Print, template: &[u16]) -> bool {
    match read_template(template) {
        Ok(sizes) => pair(
            rt,
            b"counts",
            usize::from(sizes.kinds),
            usize::from(sizes.shapes),
        ),
        Err(refusal) => refused(rt, refusal),
    }
}

// `yes`, `no`, or `refused NUMBER PLACE`.
pub fn tell_fit(rt: &impl Print, template: &[u16], shape: u16, counts: &[u16]) -> bool {
    match fit_counts(template, Shape(shape), counts) {
        Ok(true) => text(rt, b"yes\n"),
        Ok(false) => text(rt, b"no\n"),
        Err(refusal) => refused(rt, refusal),
    }
}

// `counts CARDS LINKS`, or `refused NUMBER PLACE`.
pub fn tell_script(rt: &impl Print, template: &[u16], script: &[u16]) -> bool {
    match read_script(template, script) {
        Ok(sizes) => pair(
            rt,
            b"counts",
            usize::from(sizes.cards),
            usize::from(sizes.links),
        ),
        Err(refusal) => refused(rt, refusal),
    }
}

// `links` and the words of the card's links.
pub fn tell_links(rt: &impl Print, template: &[u16], script: &[u16], card: u16) -> bool {
    text(rt, b"links");
    numbers(rt, links_of_card(template, script, Card(card)));
    text(rt, b"\n")
}

// The text of a sheet.
pub fn tell_sheet(rt: &impl Print, input: &[u8]) -> bool {
    let mut out = [0u8; TEXT_ROOM];
    let end = print_sheet(input, &mut out);
    text(rt, &out[..end])
}

// `accepted`, `refused 62 CARD SHAPE`, or `refused NUMBER PLACE`.
pub fn tell_verdict(
    rt: &impl Print,
    template: &[u16],
    script: &[u16],
    bookings: &[u16],
    desk: u16,
    grid: &[u8],
) -> bool {
    match judge(template, script, bookings, desk, grid) {
        Ok(Ok(())) => text(rt, b"accepted\n"),
        Ok(Err((card, shape))) => pair(
            rt,
            b"refused 62",
            usize::from(card.0),
            usize::from(shape.0),
        ),
        Err(refusal) => refused(rt, refusal),
    }
}

// `written WORDS` or `refused NUMBER PLACE`.
fn written(rt: &impl Print, said: Result<usize, Refusal>) {
    match said {
        Ok(words) => {
            text(rt, b"written");
            number(rt, words as u64);
        }
        Err(refusal) => {
            text(rt, b"refused");
            number(rt, u64::from(refusal.0.number()));
            number(rt, refusal.1 as u64);
        }
    }
}

// What was written or refused, then ` :` and the words of the buffer.
pub fn tell_tidied(
    rt: &impl Print,
    template: &[u16],
    script: &[u16],
    stored: &[u16],
    buffer: &mut [u16],
) -> bool {
    written(rt, tidy_bookings(template, script, stored, buffer));
    text(rt, b" :");
    numbers(rt, buffer);
    text(rt, b"\n")
}
