// Reading one part of a template (a schema): `part` reads a part and `run` a run of parts, and each calls the other. A
// row of names gets the shape (a type) that each link leads to.
#![tactic(auto)]

ghost use Rattle.std.specs.Prelude.{◌≡◌, ◌+◌, ◌<◌};
ghost use Rattle.words.specs.Limits.{max_shapes};
ghost use Rattle.words.specs.Refused.{read_as};
ghost use Rattle.parts.specs.Reading.{limits_ok, read_link, read_part, read_run};
ghost use Rattle.parts.specs.Machine.{shown, outcome, PartReadAsked, LinkReadAsked};

use words::{Fault, Kind, MAX_COUNT, MAX_GROUP, MAX_KINDS, MIN_GROUP, NO_LIMIT, Refusal, Shape};

// The counts that a template starts with.
#[derive(Clone, Copy)]
pub struct Sizes {
    pub kinds: u16,
    pub shapes: u16,
}

// A shape's entry in the table of names: its number plus one.
fn entry(shape: Shape) -> u8
    requires { shape.0 < max_shapes }
    ensures { result ≡ shape.0 + 1 }
{
    (shape.0 + 1) as u8
}

// Whether a link may have these limits: 65,535 is no limit.
fn limits_ok(low: u16, high: u16) -> bool
    ensures { result ≡ limits_ok low high }
{
    low <= MAX_COUNT && (high == NO_LIMIT || low <= high && high <= MAX_COUNT)
}

// The words of a template up to the end of a shape, and the counts that the template starts with.
#[derive(Clone, Copy)]
pub struct ShapeWords<'a> {
    pub words: &'a [u16],
    pub end: usize,
    pub sizes: Sizes,
}

impl ShapeWords<'_> {
    // The link of this kind whose code is at `at`, below the end. Its shape is entered in the row, at its label:
    // `first` is where the labels of its way start.
    fn link(&self, at: usize, row: &mut [u8], first: usize, kind: Kind) -> Result<usize, Refusal>
        requires { LinkReadAsked self.now.words.now at self.now.end self.now.sizes row.old first }
        ensures { shown (read_as result) row.new
            ≡ outcome (read_link self.now.words.now self.now.end self.now.sizes at row.old first kind.0) }
    {
        if self.end - at < 4 {
            return Err(Refusal(Fault::MissingWord, self.end));
        }
        if self.sizes.kinds <= kind.0 {
            return Err(Refusal(Fault::UnknownKind, at));
        }
        let label = first + kind.0 as usize;
        if row[label] != 0 {
            return Err(Refusal(Fault::RepeatedKind, at));
        }
        let shape = Shape(self.words[at + 1]);
        if self.sizes.shapes <= shape.0 {
            return Err(Refusal(Fault::UnknownShape, at + 1));
        }
        if limits_ok(self.words[at + 2], self.words[at + 3]) {
            row[label] = entry(shape);
            Ok(at + 4)
        } else {
            Err(Refusal(Fault::LinkLimits, at + 2))
        }
    }

    // The part at `at`, where `left` levels of parts are still allowed.
    #[cycle(part_run)]
    pub fn part(&self, at: usize, left: usize, row: &mut [u8]) -> Result<usize, Refusal>
        requires { PartReadAsked self.now.words.now self.now.end self.now.sizes row.old }
        ensures { shown (read_as result) row.new
            ≡ outcome (read_part left self.now.words.now self.now.end self.now.sizes at row.old) }
    {
        if self.end <= at {
            return Err(Refusal(Fault::MissingWord, self.end));
        }
        if left == 0 {
            return Err(Refusal(Fault::Depth, at));
        }
        let code = self.words[at];
        match code {
            0 => Ok(at + 1),
            1..=3 => self.part(at + 1, left - 1, row),
            4..=15 => Err(Refusal(Fault::UnknownCode, at)),
            16..=17 => {
                if self.end - at < 2 {
                    return Err(Refusal(Fault::MissingWord, self.end));
                }
                let count = self.words[at + 1];
                if count < MIN_GROUP {
                    return Err(Refusal(Fault::GroupSize, at + 1));
                }
                if MAX_GROUP < count {
                    return Err(Refusal(Fault::GroupSize, at + 1));
                }
                self.run(at + 2, left - 1, row, count)
            }
            18 => Err(Refusal(Fault::OpenInside, at)),
            19..=255 => Err(Refusal(Fault::UnknownCode, at)),
            256..=319 => self.link(at, row, 0, Kind(code - 256)),
            320..=383 => self.link(at, row, MAX_KINDS, Kind(code - 320)),
            _ => Err(Refusal(Fault::UnknownCode, at)),
        }
    }

    // `count` parts, one after the other.
    #[cycle(part_run)]
    fn run(&self, at: usize, left: usize, row: &mut [u8], count: u16) -> Result<usize, Refusal>
        requires { PartReadAsked self.now.words.now self.now.end self.now.sizes row.old }
        ensures { shown (read_as result) row.new
            ≡ outcome (read_run (read_part left self.now.words.now self.now.end self.now.sizes) count at row.old) }
    {
        let mut next = at;
        for _ in 0..count {
            next = self.part(next, left, row)?;
        }
        Ok(next)
    }
}
