// The part at a place of a template's words: the stars, pluses and optionals that it starts with, where what they are
// around starts, its core, and what they make of the core's interval, all of them together.
#![tactic(auto)]

ghost use Rattle.std.specs.Prelude.{ℕ, ◌+◌, ◌-◌, ◌≤◌, ◌≡◌, ◌||◌, length, get_or};
ghost use Rattle.bags.specs.Interval.{inside, interval};
ghost use Rattle.bags.specs.Span.{view};
ghost use Rattle.trees.specs.Trees.{tree_at};
ghost use Rattle.trees.specs.Wrappers.{WrapperTold, EndOf, WrapAsked, CoreAt, FrontOf};

use bags::{Span, has_one, wrap_span};

// The wrappers before a core: where it starts, whether one of them is a star or a plus, and whether one is a star or an
// optional.
#[derive(Clone, Copy)]
pub struct Front {
    pub core: usize,
    pub lowers: bool,
    pub frees: bool,
}

// The word at a place, 0 past the end.
pub fn word(words: &[u16], at: usize) -> u16
    ensures { result ≡ get_or words.now at 0 }
{
    words.get(at).copied().unwrap_or(0)
}

// Whether a code is that of a star (1), a plus (2) or an optional (3).
fn is_wrapper(code: u16) -> bool
    ensures { WrapperTold code result }
{
    matches!(code, 1..=3)
}

// Where so many words from `start` on end, or the words do.
fn end_of(length: usize, start: usize, most: usize) -> usize
    ensures { EndOf length start most result }
{
    start + usize::min(length.saturating_sub(start), most)
}

// The wrappers from `start` on, so many at most.
pub fn front_of(words: &[u16], start: usize, most: usize) -> Front
    ensures { FrontOf words.now start most result }
{
    let end = end_of(words.len(), start, most);
    let mut lowers = false;
    let mut frees = false;
    for core in start..end {
        let code = words[core];
        if !is_wrapper(code) {
            return Front {
                core,
                lowers,
                frees,
            };
        }
        lowers |= code != 3;
        frees |= code != 2;
    }
    Front {
        core: end,
        lowers,
        frees,
    }
}

// Where the core of the part at `start` starts, whose words end at `end`.
pub fn core_place(words: &[u16], start: usize, end: usize) -> usize
    requires { (start ≤ end) × (end ≤ length words.now) }
    ensures { CoreAt words.now start end result }
{
    let front = front_of(words, start, end - start);
    front.core
}

// Whether counts fit the part at `start`, from the interval of its core.
pub fn core_fits(words: &[u16], start: usize, core: usize, span: Span) -> bool
    requires { WrapAsked words.now start core }
    ensures { (w : ℕ → ℕ) (left : ℕ) → view span ≡ interval (tree_at left words.now core).value w →
        result ≡ inside 1 (interval (tree_at (left + (core - start)) words.now start).value w) }
{
    let front = front_of(words, start, core - start);
    let around = wrap_span(front.lowers, front.frees, span);
    has_one(around)
}
