// The operations of capi as a static library for C (include/prep.h): each export says what capi's function of the same
// name says, and calls it. A slice crosses as a pointer and a length.
#![tactic(auto)]

ghost use Rattle.std.specs.Prelude.{◌≡◌, length};
ghost use Rattle.template.specs.Template.{template_says};
ghost use Rattle.counts.specs.Fit.{FitSays};
ghost use Rattle.script.specs.Script.{script_says, card_links};
ghost use Rattle.typing.specs.Calls.{LargestSays, SmallestSays, BothSays};
ghost use Rattle.typing.specs.Judge.{JudgeSays};
ghost use Rattle.typing.specs.Tidy.{TidySays};
ghost use Rattle.capi.specs.Numbers.{Tells, TellsBoth, template_numbers, fit_numbers, script_numbers};
ghost use Rattle.capi.specs.Numbers.{largest_numbers, smallest_numbers, judge_numbers, written_numbers, copied};

use capi::{
    PrepBoth, PrepFit, PrepJudge, PrepLargest, PrepScript, PrepSmallest, PrepTemplate, PrepWritten,
};

// Read a template.
#[unsafe(no_mangle)]
pub extern "C" fn prep_read_template(template: &[u16]) -> PrepTemplate
    ensures { Tells (λ said. said ≡ template_says template.now) (template_numbers result) }
{
    capi::prep_read_template(template)
}

// Fit counts.
#[unsafe(no_mangle)]
pub extern "C" fn prep_fit_counts(template: &[u16], shape: u16, counts: &[u16]) -> PrepFit
    ensures { Tells (FitSays template.now shape counts.now) (fit_numbers result) }
{
    capi::prep_fit_counts(template, shape, counts)
}

// Read a script.
#[unsafe(no_mangle)]
pub extern "C" fn prep_read_script(template: &[u16], script: &[u16]) -> PrepScript
    ensures { Tells (λ said. said ≡ script_says template.now script.now) (script_numbers result) }
{
    capi::prep_read_script(template, script)
}

// Links of a card: copies as many of their words as there is room for, and returns how many they are.
#[unsafe(no_mangle)]
pub extern "C" fn prep_links_of_card(
    template: &[u16],
    script: &[u16],
    card: u16,
    links: &mut [u16],
) -> usize
    ensures count { result ≡ length (card_links template.now script.now card) }
    ensures words { links.new ≡ copied (card_links template.now script.now card) links.old }
{
    capi::prep_links_of_card(template, script, card, links)
}

// Largest.
#[unsafe(no_mangle)]
pub extern "C" fn prep_largest(template: &[u16], script: &[u16], grid: &mut [u8]) -> PrepLargest
    ensures { Tells (LargestSays template.now script.now grid.old grid.new) (largest_numbers result) }
{
    capi::prep_largest(template, script, grid)
}

// Smallest, of the desk's bookings.
#[unsafe(no_mangle)]
pub extern "C" fn prep_smallest(
    template: &[u16],
    script: &[u16],
    bookings: &[u16],
    desk: u16,
    grid: &mut [u8],
) -> PrepSmallest
    ensures { Tells (SmallestSays template.now script.now bookings.now desk grid.old grid.new)
        (smallest_numbers result) }
{
    capi::prep_smallest(template, script, bookings, desk, grid)
}

// Both typings, the smallest of the desk's bookings.
#[unsafe(no_mangle)]
pub extern "C" fn prep_both_typings(
    template: &[u16],
    script: &[u16],
    bookings: &[u16],
    desk: u16,
    small: &mut [u8],
    large: &mut [u8],
) -> PrepBoth
    ensures { TellsBoth (BothSays template.now script.now bookings.now desk
        (record { small = small.old; large = large.old })
        (record { small = small.new; large = large.new })) result }
{
    capi::prep_both_typings(template, script, bookings, desk, small, large)
}

// Judge a grid, by the desk's bookings.
#[unsafe(no_mangle)]
pub extern "C" fn prep_judge(
    template: &[u16],
    script: &[u16],
    bookings: &[u16],
    desk: u16,
    grid: &[u8],
) -> PrepJudge
    ensures { Tells (JudgeSays template.now script.now bookings.now desk grid.now) (judge_numbers result) }
{
    capi::prep_judge(template, script, bookings, desk, grid)
}

// Tidy bookings.
#[unsafe(no_mangle)]
pub extern "C" fn prep_tidy_bookings(
    template: &[u16],
    script: &[u16],
    bookings: &[u16],
    out: &mut [u16],
) -> PrepWritten
    ensures { Tells (TidySays template.now script.now bookings.now out.old out.new) (written_numbers result) }
{
    capi::prep_tidy_bookings(template, script, bookings, out)
}
