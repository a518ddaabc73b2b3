// The interval of repetitions of a part, from the template's words (section 8.2 of the paper).
// `part` evaluates a part and `run` a run of parts, and each calls the other.
#![tactic(auto)]

ghost use Rattle.std.specs.Prelude.{◌≡◌, ℕ};
ghost use Rattle.words.specs.Limits.{max_depth};
ghost use Rattle.bags.specs.Part.{Part, Parts};
ghost use Rattle.bags.specs.Interval.{inside, interval};
ghost use Rattle.parts.specs.Reading.{gathered};
ghost use Rattle.parts.specs.Placed.{placed, onto};
ghost use Rattle.links.specs.Runs.{amount};
ghost use Rattle.trees.specs.Trees.{link_at, tree_at, trees_at};
ghost use Rattle.joins.specs.Evaluation.{Evaluates};
ghost use Rattle.evaluator.specs.Machine.{Evaluable, LinkEvaluable, Wrapped};

use bags::{Span, TOP, has_one, link_span, wrap_span};
use joins::{Amounts, Eval, join, take_links, uncounted};
use trees::{Front, front_of, word};
use words::MAX_DEPTH;

// Nothing, before the place `next`.
fn nothing(next: usize) -> Eval
    ensures { (w : ℕ → ℕ) (at : ℕ) → Evaluates w at (placed Part.nothing next) result }
{
    Eval {
        next,
        span: Span { lo: 0, hi: TOP },
    }
}

// No parts of a choice (16) or of all (17), before the place `next`.
fn none(code: u16, next: usize) -> Eval
    ensures { (w : ℕ → ℕ) (at : ℕ) → Evaluates w at (onto (gathered code) (placed Parts.none next)) result }
{
    if code != 16 {
        return nothing(next);
    }
    Eval {
        next,
        span: Span { lo: 0, hi: 0 },
    }
}

// The link of this label whose code is at `at`.
fn link(words: &[u16], amounts: &Amounts, at: usize, label: u16) -> Eval
    requires { LinkEvaluable amounts.now.links.now amounts.now.listed.now at }
    ensures { Evaluates (amount amounts.now.links.now amounts.now.listed.now) at
        (link_at words.now at label) result }
{
    let count = amounts.count_next(uncounted(), label).count;
    let span = link_span(count, word(words, at + 2), word(words, at + 3));
    Eval { next: at + 4, span }
}

// A part, from its wrappers and what their core is.
fn wrapped(front: Front, core: Eval) -> Eval
    ensures { Wrapped front core result }
{
    Eval {
        next: core.next,
        span: wrap_span(front.lowers, front.frees, core.span),
    }
}

// The part at `at`, where `left` levels of parts are still allowed: its wrappers, and by its code what they are around.
#[cycle(part_run)]
fn part(words: &[u16], amounts: &Amounts, at: usize, left: usize) -> Eval
    requires { Evaluable words.now amounts.now.links.now amounts.now.listed.now }
    ensures { Evaluates (amount amounts.now.links.now amounts.now.listed.now) at
        (tree_at left words.now at) result }
{
    let front = front_of(words, at, left);
    let core = front.core;
    let levels = left - (core - at);
    if levels == 0 || words.len() <= core {
        return wrapped(front, nothing(core));
    }
    let code = words[core];
    match code {
        16..=17 => {
            let parts = word(words, core + 1);
            let inner = run(words, amounts, core + 2, levels - 1, parts, code);
            wrapped(front, inner)
        }
        256..=383 => wrapped(front, link(words, amounts, core, code - 256)),
        _ => wrapped(front, nothing(core + 1)),
    }
}

// So many parts of a choice (16) or of all (17), one after the other. Links that stand side by side are taken together.
#[cycle(part_run)]
fn run(words: &[u16], amounts: &Amounts, at: usize, left: usize, parts: u16, code: u16) -> Eval
    requires { Evaluable words.now amounts.now.links.now amounts.now.listed.now }
    ensures { Evaluates (amount amounts.now.links.now amounts.now.listed.now) at
        (onto (gathered code) (trees_at (tree_at left words.now) parts at)) result }
{
    let mut whole = none(code, at);
    let mut done = 0;
    // a cursor: each turn takes a part, or as many links as stand there
    while done < parts {
        let some = take_links(words, amounts, left, parts - done, code, whole);
        if some.count == 0 {
            let first = part(words, amounts, whole.next, left);
            whole = join(code, whole, first);
            done += 1;
        } else {
            whole = some.eval;
            done += some.count;
        }
    }
    whole
}

// Whether the counts of the labels of the part at `at` fit it.
pub fn part_fits(words: &[u16], amounts: &Amounts, at: usize) -> bool
    requires { Evaluable words.now amounts.now.links.now amounts.now.listed.now }
    ensures { result ≡ inside 1 (interval (tree_at max_depth words.now at).value
        (amount amounts.now.links.now amounts.now.listed.now)) }
{
    let whole = part(words, amounts, at, MAX_DEPTH);
    has_one(whole.span)
}
