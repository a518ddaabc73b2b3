// Intervals of repetitions as two numbers (docs/FORMAT.md, "Bags and counts"; section 8.2 of the paper).
#![tactic(auto, unfolding(crate::specs::Span::view, crate::specs::Span::Small))]

ghost use Rattle.std.specs.Prelude.{◌≡◌, ℕ, ◌+◌};
ghost use Rattle.bags.specs.Interval.{inside, meet, add, low_room, high_room, link_interval};
ghost use Rattle.bags.specs.Interval.{wrap_interval};
ghost use Rattle.bags.specs.Span.{view, Small, Addable};
ghost use Rattle.bags.specs.Part.{Limit, limit_of};

use words::NO_LIMIT;

// From lo to hi; hi 4,294,967,295 is no limit; empty where hi is below lo.
#[derive(Clone, Copy)]
pub struct Span {
    pub lo: u32,
    pub hi: u32,
}

// The hi of a span that has no limit.
pub const TOP: u32 = u32::MAX;

// The span of every number.
const ANY: Span = Span { lo: 0, hi: TOP };

// The numbers of both.
pub fn meet_span(x: Span, y: Span) -> Span
    ensures view { view result ≡ meet (view x) (view y) }
    ensures small { (n : ℕ) → Small n x → Small n y → Small n result }
{
    Span {
        lo: x.lo.max(y.lo),
        hi: x.hi.min(y.hi),
    }
}

// The sums of a number of each.
pub fn add_span(x: Span, y: Span) -> Span
    requires { Addable x y }
    ensures view { view result ≡ add (view x) (view y) }
    ensures small { (m n : ℕ) → Small m x → Small n y → Small (m + n) result }
{
    if x.hi < x.lo {
        return x;
    }
    if y.hi < y.lo {
        return y;
    }
    Span {
        lo: x.lo + y.lo,
        hi: x.hi.saturating_add(y.hi),
    }
}

// Those i with i × low ≤ count.
fn low_room(count: u16, low: u16) -> Span
    ensures view { view result ≡ low_room count low }
    ensures small { Small count result }
{
    if low == 0 {
        return ANY;
    }
    Span {
        lo: 0,
        hi: u32::from(count / low),
    }
}

// Those i with count ≤ i × high; 65,535 is no limit.
fn high_room(count: u16, high: u16) -> Span
    ensures view { view result ≡ high_room count (limit_of high) }
    ensures small { Small count result }
{
    match high {
        NO_LIMIT => Span {
            lo: u32::from(count.min(1)),
            hi: TOP,
        },
        0 if count == 0 => ANY,
        0 => Span { lo: 1, hi: 0 },
        _ => Span {
            lo: u32::from(count.div_ceil(high)),
            hi: TOP,
        },
    }
}

// Those i with i × low ≤ count ≤ i × high; 65,535 is no limit.
pub fn link_span(count: u16, low: u16, high: u16) -> Span
    ensures view { view result ≡ link_interval count low (limit_of high) }
    ensures small { Small count result }
{
    meet_span(low_room(count, low), high_room(count, high))
}

// The span of a link whose label counts 0: any number if its low is 0, else 0 alone.
pub fn zero_span(low: u16) -> Span
    ensures view { (high : Limit) → view result ≡ link_interval 0 low high }
    ensures small { Small 0 result }
{
    if low == 0 {
        return ANY;
    }
    Span { lo: 0, hi: 0 }
}

// The span of a part below stars, pluses and optionals, from its own: whether one of them is a star or a plus, which
// lower what is above 1 to 1, and whether one is a star or an optional, which free it of a limit.
pub fn wrap_span(lowers: bool, frees: bool, x: Span) -> Span
    ensures view { view result ≡ wrap_interval lowers frees (view x) }
    ensures small { (n : ℕ) → Small n x → Small n result }
{
    if x.hi < x.lo {
        return x;
    }
    let lo = if lowers { x.lo.min(1) } else { x.lo };
    let hi = if frees { TOP } else { x.hi };
    Span { lo, hi }
}

// Whether 1 is inside.
pub fn has_one(x: Span) -> bool
    ensures { result ≡ inside 1 (view x) }
{
    (x.lo..=x.hi).contains(&1)
}
