// Reading a template (a schema): the words of each shape (a type) are one part exactly, which `parts` reads. The same
// reading fills the table of names.
#![tactic(auto)]

ghost use Rattle.std.specs.Prelude.{◌≡◌, ◌+◌, ◌<◌, length};
ghost use Rattle.words.specs.Reading.{accepted};
ghost use Rattle.words.specs.Refused.{read_as};
ghost use Rattle.words.specs.Sizes.{table_size};
ghost use Rattle.template.specs.Answer.{template_said};
ghost use Rattle.template.specs.Template.{open_at, part_at, read_shape, read_shapes, Template, read_template};
ghost use Rattle.template.specs.Template.{template_says};
ghost use Rattle.template.specs.Machine.{ShapeReadAsked, ShapeAnswer, Tabled, ShapesReadAsked, ShapesAnswer, moved_to};

use parts::{ShapeWords, Sizes};
use words::{
    Fault, MAX_DEPTH, MAX_KINDS, MAX_LABELS, MAX_SHAPES, MAX_TEMPLATE, Refusal, TABLE_SIZE,
};

// Whether the shape whose count of words stands at `at` is open: the word after the count is 18.
pub fn open_at(words: &[u16], at: usize) -> bool
    requires { at + 1 < length words.now }
    ensures { result ≡ open_at words.now at }
{
    words[at + 1] == 18
}

// Where the part of that shape starts: after the 18 of an open one, else after the count.
pub fn part_at(words: &[u16], at: usize) -> usize
    requires { at + 1 < length words.now }
    ensures { result ≡ part_at words.now at }
{
    if open_at(words, at) { at + 2 } else { at + 1 }
}

// A template's words and the next place to read.
#[derive(Drop)]
struct Reader<'a> {
    words: &'a [u16],
    at: usize,
}

impl Reader<'_> {
    // Reads the shape at its place, and moves on behind it. The row, whatever it held, then has the shape that it names
    // for each label.
    fn shape(&mut self, sizes: Sizes, row: &mut [u8]) -> Result<(), Refusal>
        requires { ShapeReadAsked sizes row.old }
        ensures stays { self.new.words ≡ self.old.words }
        ensures reads { ShapeAnswer (read_shape sizes self.old.words.now self.old.at) (moved_to self.new.at result)
            row.new }
    {
        let words = self.words;
        let at = self.at;
        if words.len() <= at {
            return Err(Refusal(Fault::MissingWord, words.len()));
        }
        let count = usize::from(words[at]);
        let start = at + 1;
        if words.len() - start < count {
            return Err(Refusal(Fault::MissingWord, words.len()));
        }
        if count == 0 {
            return Err(Refusal(Fault::MissingWord, start));
        }
        let end = start + count;
        let first = part_at(words, at);
        let shape = ShapeWords { words, end, sizes };
        row.fill(0);
        let next = shape.part(first, MAX_DEPTH, row)?;
        if next < end {
            return Err(Refusal(Fault::WordsLeft, next));
        }
        self.at = end;
        Ok(())
    }
}

// All shapes, and then the template's end. The table gets a row for each shape.
fn all_shapes(words: &[u16], sizes: Sizes, names: &mut [u8]) -> Result<usize, Refusal>
    requires { ShapesReadAsked sizes names.old }
    ensures { ShapesAnswer (read_shapes sizes words.now sizes.shapes 2) (read_as result) names.new }
{
    let mut reader = Reader { words, at: 2 };
    for t in 0..usize::from(sizes.shapes) {
        let base = t * MAX_LABELS;
        reader.shape(sizes, &mut names[base..base + MAX_LABELS])?;
    }
    if reader.at < words.len() {
        return Err(Refusal(Fault::WordsLeft, reader.at));
    }
    Ok(reader.at)
}

// Reads a template and fills the table of names, whatever it held. Only the rows of its shapes are written.
pub fn read_names(template: &[u16], names: &mut [u8]) -> Result<Sizes, Refusal>
    requires { length names.old ≡ table_size }
    ensures answer { template_said result ≡ template_says template.now }
    ensures table { (t : Template) → read_template template.now ≡ accepted t
        → Tabled t.parts names.new }
{
    if template.len() < 2 || MAX_TEMPLATE < template.len() {
        return Err(Refusal(Fault::TemplateLength, 0));
    }
    let kinds = template[0];
    if kinds < 1 || MAX_KINDS < usize::from(kinds) {
        return Err(Refusal(Fault::KindCount, 0));
    }
    let shapes = template[1];
    if shapes < 1 || MAX_SHAPES < usize::from(shapes) {
        return Err(Refusal(Fault::ShapeCount, 1));
    }
    let sizes = Sizes { kinds, shapes };
    all_shapes(template, sizes, names)?;
    Ok(sizes)
}

// Read a template: its counts of kinds and shapes, or the first refusal.
pub fn read_template(template: &[u16]) -> Result<Sizes, Refusal>
    ensures { template_said result ≡ template_says template.now }
{
    let mut names = [0u8; TABLE_SIZE];
    read_names(template, &mut names)
}
