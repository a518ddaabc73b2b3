// The index of one half of a table of names, built in one pass: its places by kind and shape named. A half has the
// entries of one way; its place p is that of the shape p / MAX_KINDS and the kind p % MAX_KINDS.
ghost use Rattle.std.specs.Prelude.{◌≡◌, ◌+◌, ◌*◌, ◌≤◌};
ghost use Rattle.words.specs.Limits.{max_kinds, max_labels, max_shapes};
ghost use Rattle.strikes.specs.Indexes.{Indexed, IndexOf, NamesAsked, Table};

use words::{Kind, MAX_KINDS, MAX_LABELS, MAX_SHAPES, Shape};

// Places of one half of a table of names: a row of kinds for each shape.
pub const HALF_TABLE: usize = MAX_SHAPES * MAX_KINDS;

// The places that name the same shape for the same kind are a chain: of each kind and shape the last place, and of each
// place the one before, both plus one, or 0. `start` is where the labels of the half start.
#[derive(Clone, Copy)]
pub struct NameIndex<'a> {
    pub start: usize,
    pub first: &'a [u16],
    pub next: &'a [u16],
}

// Where a shape's entry for a kind stands in the table of names. `start` is where the labels of the way start.
fn entry_place(shape: Shape, start: usize, kind: Kind) -> usize
    requires { start ≤ max_kinds }
    ensures { result ≡ shape.0 * max_labels + start + kind.0 }
{
    shape.0 as usize * MAX_LABELS + start + kind.0 as usize
}

// The key of a kind and the shape that is named for it.
pub fn name_key(kind: Kind, shape: Shape) -> usize
    ensures { result ≡ kind.0 * max_shapes + shape.0 }
{
    kind.0 as usize * MAX_SHAPES + shape.0 as usize
}

// Chains the places by kind and shape named. `start` is where the labels of the way start; a place that names no shape
// is passed over.
pub fn index_names(names: &[u8], start: usize, shapes: usize, first: &mut [u16], next: &mut [u16])
    requires { NamesAsked names.now start shapes first.old next.old }
    ensures { Indexed names.now start shapes first.new next.new }
{
    for p in 0..shapes * MAX_KINDS {
        let shape = Shape((p / MAX_KINDS) as u16);
        let kind = Kind((p % MAX_KINDS) as u16);
        let entry = usize::from(names[entry_place(shape, start, kind)]);
        if 0 < entry {
            let key = name_key(kind, Shape((entry - 1) as u16));
            next[p] = first[key];
            first[key] = (p + 1) as u16;
        }
    }
}

impl<'a> NameIndex<'a> {
    // The index of the half whose labels start at `start`, in two buffers, whatever they held.
    pub fn new(
        names: &[u8],
        start: usize,
        shapes: usize,
        first: &'a mut [u16; HALF_TABLE],
        next: &'a mut [u16; HALF_TABLE],
    ) -> NameIndex<'a>
        requires { Table names.now shapes × (start ≤ max_kinds) }
        ensures { IndexOf names.now shapes result × (result.start ≡ start) }
    {
        *first = [0; HALF_TABLE];
        *next = [0; HALF_TABLE];
        index_names(names, start, shapes, first, next);
        NameIndex { start, first, next }
    }
}
