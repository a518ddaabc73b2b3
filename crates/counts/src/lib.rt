// Fit counts: whether counts of links fit a shape of a template.
#![tactic(auto)]

ghost use Rattle.std.specs.Prelude.{◌≡◌, ◌<◌, length, MatchOption};
ghost use Rattle.words.specs.Limits.{max_depth};
ghost use Rattle.bags.specs.Part.{Part};
ghost use Rattle.bags.specs.Bag.{count};
ghost use Rattle.bags.specs.Interval.{others_zero, fits as counts_fit};
ghost use Rattle.template.specs.Template.{open_at, part_at, shape_place};
ghost use Rattle.trees.specs.Trees.{tree_at};
ghost use Rattle.evaluator.specs.Rows.{RowOf};
ghost use Rattle.counts.specs.Answer.{fit_said};
ghost use Rattle.counts.specs.Fit.{first_over, FitSays};
ghost use Rattle.counts.specs.Machine.{OthersAsked, Testable, SpreadAsked, Spread, NamesRead};

use evaluator::part_fits;
use joins::Amounts;
use parts::Sizes;
use template::{open_at, read_names};
use trees::word;
use words::{Fault, MAX_COUNT, MAX_KINDS, MAX_LABELS, Refusal, Shape, TABLE_SIZE};

// Where the count of words of a shape stands.
fn shape_place(words: &[u16], shape: u16) -> usize
    ensures { result ≡ shape_place words.now shape 2 }
{
    let mut at = 2;
    for _ in 0..shape {
        at = at + 1 + usize::from(word(words, at));
    }
    at
}

// Whether each outgoing kind that has no entry in the row counts 0: those that the row's part does not name.
fn others_zero(row: &[u8], counts: &[u16], kinds: usize) -> bool
    requires { OthersAsked row.now counts.now kinds }
    ensures { (p : Part) → RowOf row.now kinds p
        → result ≡ others_zero kinds p (count counts.now) }
{
    for i in 0..kinds {
        if counts[i] != 0 && row[i] == 0 {
            return false;
        }
    }
    true
}

// The place of the first count over 8,192, if there is one.
fn first_over(counts: &[u16]) -> Option<usize>
    ensures { MatchOption result (first_over counts.now ≡ length counts.now)
        (λ i. (i < length counts.now) × (i ≡ first_over counts.now)) }
{
    for (i, count) in counts.iter().enumerate() {
        if MAX_COUNT < *count {
            return Some(i);
        }
    }
    None
}

// Whether a list with the counts of all labels fits the shape whose count of words stands at `at`.
// The row is the shape's in the table of names.
fn list_fits(words: &[u16], at: usize, row: &[u8], counts: &[u16], kinds: usize) -> bool
    requires { Testable words.now at row.now counts.now kinds }
    ensures { result ≡ counts_fit (open_at words.now at) kinds
        (tree_at max_depth words.now (part_at words.now at)).value
        (count counts.now) }
{
    let amounts = Amounts {
        links: &[],
        listed: counts,
    };
    if open_at(words, at) {
        return part_fits(words, &amounts, at + 2);
    }
    if others_zero(row, counts, kinds) {
        return part_fits(words, &amounts, at + 1);
    }
    false
}

// Spreads a list of counts, those of the outgoing kinds and then those of the incoming ones, over all labels.
fn spread(counts: &[u16], kinds: usize, labels: &mut [u16])
    requires { SpreadAsked counts.now kinds labels.old }
    ensures { Spread counts.now kinds labels.new }
{
    for k in 0..kinds {
        labels[k] = counts[k];
        labels[MAX_KINDS + k] = counts[kinds + k];
    }
}

// Whether the counts fit the shape of a template that is accepted, or the first refusal.
// The table of names is the template's.
fn fit_accepted(
    template: &[u16],
    names: &[u8],
    sizes: Sizes,
    shape: Shape,
    counts: &[u16],
) -> Result<bool, Refusal>
    requires { NamesRead template.now names.now sizes.kinds sizes.shapes }
    ensures { FitSays template.now shape.0 counts.now (fit_said result) }
{
    let n = shape.0;
    if sizes.shapes <= n {
        return Err(Refusal(Fault::CountedShape, 0));
    }
    let each_way = usize::from(sizes.kinds);
    if counts.len() != 2 * each_way {
        return Err(Refusal(Fault::CountsLength, 0));
    }
    if let Some(over) = first_over(counts) {
        return Err(Refusal(Fault::CountRange, over));
    }
    let base = usize::from(n) * MAX_LABELS;
    let end = base + MAX_LABELS;
    let at = shape_place(template, n);
    let mut labels = [0u16; MAX_LABELS];
    spread(counts, each_way, &mut labels);
    Ok(list_fits(template, at, &names[base..end], &labels, each_way))
}

// Fit counts: whether the counts fit the shape of the template, or the first refusal.
pub fn fit_counts(template: &[u16], shape: Shape, counts: &[u16]) -> Result<bool, Refusal>
    ensures { FitSays template.now shape.0 counts.now (fit_said result) }
{
    let mut names = [0u8; TABLE_SIZE];
    let sizes = read_names(template, &mut names)?;
    fit_accepted(template, &names, sizes, shape, counts)
}
