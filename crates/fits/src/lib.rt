// Which pairs of a sheet fit by counts. Each shape is looked over once, and then held against every card: a flat one by
// going along the card's links, any other by the evaluator, which counts each label off them. Cards whose links have
// the same kinds share the byte of a shape that names no incoming kind.
#![tactic(auto)]

ghost use Rattle.std.specs.Prelude.{ℕ, ◌≡◌, List};
ghost use Rattle.bags.specs.Part.{Part};
ghost use Rattle.bags.specs.Interval.{others_zero};
ghost use Rattle.links.specs.Runs.{kinds_in};
ghost use Rattle.flat.specs.Meeting.{KindsUnder};
ghost use Rattle.evaluator.specs.Rows.{RowOf};
ghost use Rattle.fits.specs.Plans.{PlanAsked, PlanOf, NamesAsked, CardReady, CardFits};
ghost use Rattle.fits.specs.Fitting.{GridReady, ShapeReady, WaysAsked, WaysSeen};
ghost use Rattle.fits.specs.Fitting.{PairReady, ShapeFits, ColumnFitted, GridFitted};

use evaluator::part_fits;
use flat::{meet_card, survey_part};
use joins::Amounts;
use links::{CardLinks, Chains, count_arriving, leaving_links};
use sheet::{Extent, ReadSheet, some_named};
use template::{open_at, part_at};
use trees::{core_fits, core_place};
use twins::find_twins;
use words::{MAX_CARDS, MAX_KINDS, MAX_LABELS};

// How a shape is tested: whether it is open, and where its part and the part's core start; if the core is flat, how
// many of its links must be there.
#[derive(Clone, Copy)]
struct Plan {
    opened: bool,
    start: usize,
    core: usize,
    needed: Option<usize>,
}

// A shape as it is held against a card: its row of the table of names, the places of its core's links, and its plan.
#[derive(Clone, Copy)]
struct ShapeTest<'a> {
    row: &'a [u8],
    places: &'a [u16],
    plan: Plan,
}

// Looks a shape over, whose count of words stands at `at`. The places of a flat core's links are entered, which are
// all 0 before.
fn plan_shape(template: &[u16], at: usize, places: &mut [u16]) -> Plan
    requires { PlanAsked template.now at places.old }
    ensures { PlanOf template.now at places.new result }
{
    let end = at + 1 + usize::from(template[at]);
    let opened = open_at(template, at);
    let start = part_at(template, at);
    let core = core_place(template, start, end);
    let needed = survey_part(template, core, end, places);
    Plan {
        opened,
        start,
        core,
        needed,
    }
}

// Whether the row has an entry for the kind of each of a card's links.
fn all_named(row: &[u8], links: &[u16]) -> bool
    requires { NamesAsked row.now links.now }
    ensures { (p : Part) (kinds : ℕ) → RowOf row.now kinds p →
        KindsUnder links.now kinds → result ≡ others_zero kinds p (kinds_in links.now) }
{
    for i in 0..links.len() / 3 {
        if row[usize::from(links[3 * i + 1])] == 0 {
            return false;
        }
    }
    true
}

// Whether a card's links and the counts of the last labels fit a shape.
fn card_fits(template: &[u16], shape: &ShapeTest, links: &[u16], arriving: &[u16]) -> bool
    requires { CardReady template.now shape.now links.now arriving.now }
    ensures { CardFits template.now shape.now links.now arriving.now result }
{
    let plan = shape.plan;
    match plan.needed {
        Some(needed) => match meet_card(
            template,
            shape.places,
            plan.opened,
            needed,
            links,
            arriving,
        ) {
            Some(span) => core_fits(template, plan.start, plan.core, span),
            None => false,
        },
        None => (plan.opened || all_named(shape.row, links))
            && part_fits(
                template,
                &Amounts {
                    links,
                    listed: arriving,
                },
                plan.start,
            ),
    }
}

// Whether a shape names an incoming kind, by its row of the table of names.
fn looks_back(row: &[u8], e: Extent) -> bool
    requires { WaysAsked row.now e }
    ensures { WaysSeen row.now e result }
{
    if e.incoming {
        let stop = MAX_KINDS + usize::from(e.kinds);
        return some_named(&row[MAX_KINDS..stop]);
    }
    false
}

// Whether the links of card n fit a shape. Those to it are looked at if the shape names an incoming kind.
fn pair_fits(sheet: &ReadSheet, links: &CardLinks, shape: &ShapeTest, back: bool, n: usize) -> bool
    requires { PairReady sheet.now links.now shape.now back n }
    ensures { ShapeFits sheet.now shape.now n result }
{
    let own = leaving_links(sheet.script, links.starts, n);
    if !back {
        return card_fits(sheet.template, shape, own, &[]);
    }
    let Chains { first, next } = links.chains;
    let mut arriving = [0u16; MAX_KINDS];
    count_arriving(
        sheet.script,
        first,
        next,
        usize::from(sheet.extent.links),
        n,
        &mut arriving,
    );
    card_fits(sheet.template, shape, own, &arriving)
}

// Tests the shape t, whose count of words stands at `at`, on each card: its column of the grid is 1 where the counts
// fit, else 0. If the shape names no incoming kind, a card takes the byte of its twin.
fn fit_shape(
    sheet: &ReadSheet,
    links: &CardLinks,
    twins: &[u16],
    t: usize,
    at: usize,
    grid: &mut [u8],
)
    requires { ShapeReady sheet.now links.now twins.now t at grid.old }
    ensures { ColumnFitted sheet.now.template.now sheet.now.script.now sheet.now.extent t grid.old grid.new }
{
    let base = t * MAX_LABELS;
    let end = base + MAX_LABELS;
    let row = &sheet.names[base..end];
    let mut places = [0u16; MAX_LABELS];
    let plan = plan_shape(sheet.template, at, &mut places);
    let back = looks_back(row, sheet.extent);
    let shape = ShapeTest {
        row,
        places: &places,
        plan,
    };
    let cards = usize::from(sheet.extent.cards);
    let shapes = usize::from(sheet.extent.shapes);
    for n in 0..cards {
        let twin = usize::from(twins[n]);
        if twin < n && !back {
            grid[n * shapes + t] = grid[twin * shapes + t];
        } else {
            let fit = pair_fits(sheet, links, &shape, back, n);
            grid[n * shapes + t] = u8::from(fit);
        }
    }
}

// Tests each shape on each card: the grid has 1 where the counts fit, else 0.
pub fn fit_grid(sheet: &ReadSheet, links: &CardLinks, grid: &mut [u8])
    requires { GridReady sheet.now links.now grid.old }
    ensures { GridFitted sheet.now grid.new }
{
    let mut twins = [0u16; MAX_CARDS];
    find_twins(
        sheet.script,
        links.starts,
        usize::from(sheet.extent.cards),
        &mut twins,
    );
    let shapes = usize::from(sheet.extent.shapes);
    let mut at = 2;
    for t in 0..shapes {
        fit_shape(sheet, links, &twins, t, at, grid);
        at += 1 + usize::from(sheet.template[at]);
    }
}
