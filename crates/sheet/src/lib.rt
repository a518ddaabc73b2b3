// A template and a script that are read together.
#![tactic(auto)]

ghost use Rattle.std.specs.Prelude.{ℕ, ◌<◌, ◌≡◌, false, length, get_or};
ghost use Rattle.words.specs.Sizes.{table_size};
ghost use Rattle.sheet.specs.Opened.{OnlyOutgoing, WaysAsked, ReadAs};

use script::read_with_kinds;
use template::read_names;
use words::{MAX_KINDS, MAX_LABELS, Refusal};

// The counts of a template and a script that are read, and whether some shape names an incoming kind.
#[derive(Clone, Copy)]
pub struct Extent {
    pub kinds: u16,
    pub shapes: u16,
    pub cards: u16,
    pub links: u16,
    pub incoming: bool,
}

// A sheet that is read: its template and script, the table of names, and what reading them found.
#[derive(Clone, Copy)]
pub struct ReadSheet<'a> {
    pub template: &'a [u16],
    pub script: &'a [u16],
    pub names: &'a [u8],
    pub extent: Extent,
}

// Whether one of the entries names a shape.
pub fn some_named(entries: &[u8]) -> bool
    ensures { result ≡ false → (k : ℕ) → k < length entries.now → get_or entries.now k 0 ≡ 0 }
{
    entries.iter().any(|entry| *entry != 0)
}

// Whether some shape names an incoming kind, by the table of names.
fn names_incoming(names: &[u8], kinds: usize, shapes: usize) -> bool
    requires { WaysAsked names.now kinds shapes }
    ensures { result ≡ false → OnlyOutgoing names.now shapes kinds }
{
    for t in 0..shapes {
        let base = t * MAX_LABELS + MAX_KINDS;
        if some_named(&names[base..base + kinds]) {
            return true;
        }
    }
    false
}

// Reads a template and a script, and fills the table of names, whatever it held.
pub fn read_sheet(template: &[u16], script: &[u16], names: &mut [u8]) -> Result<Extent, Refusal>
    requires { length names.old ≡ table_size }
    ensures { ReadAs template.now script.now names.new result }
{
    let sizes = read_names(template, names)?;
    let counts = read_with_kinds(sizes.kinds, script)?;
    let incoming = names_incoming(names, usize::from(sizes.kinds), usize::from(sizes.shapes));
    Ok(Extent {
        kinds: sizes.kinds,
        shapes: sizes.shapes,
        cards: counts.cards,
        links: counts.links,
        incoming,
    })
}
