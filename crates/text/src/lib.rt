// Writing the text of a printed sheet, or of a verdict, into a lent buffer, a piece at a time.
#![tactic(auto)]

ghost use Rattle.std.specs.Prelude.{[], ◌∷◌, ◌+◌, ◌*◌, ◌≤◌, length};
ghost use Rattle.text.specs.Text.{digits, shape_text, shapes_text, card_line, card_lines, refused_line};
ghost use Rattle.text.specs.Steps.{line_text, Fits, Adds, Shows};
ghost use Rattle.words.specs.Refused.{number};
ghost use Rattle.words.specs.Wrote.{Room, Wrote};

use words::Refusal;

// A text that grows in a lent buffer: its bytes stand there up to `end`.
#[derive(Drop)]
pub struct Writer<'a> {
    pub out: &'a mut [u8],
    pub end: usize,
}

impl Writer<'_> {
    // Adds a byte.
    fn byte(&mut self, byte: u8)
        requires { Fits self.old (byte ∷ []) }
        ensures { Adds self.old (byte ∷ []) self.new }
    {
        self.out[self.end] = byte;
        self.end += 1;
    }

    // Adds bytes.
    pub fn bytes(&mut self, text: &[u8])
        requires { Fits self.old text.now }
        ensures { Adds self.old text.now self.new }
    {
        let end = self.end + text.len();
        self.out[self.end..end].copy_from_slice(text);
        self.end = end;
    }

    // Adds a number in base ten.
    fn number(&mut self, n: usize)
        requires { Fits self.old (digits n) }
        ensures { Adds self.old (digits n) self.new }
    {
        if n < 10 {
            self.byte(b'0' + n as u8);
            return;
        }
        self.number(n / 10);
        self.byte(b'0' + (n % 10) as u8);
    }

    // Adds a line: a word, and numbers with a space before each.
    pub fn line(&mut self, word: &[u8], numbers: &[usize])
        requires { Fits self.old (line_text word.now numbers.now) }
        ensures { Adds self.old (line_text word.now numbers.now) self.new }
    {
        self.bytes(word);
        for number in numbers {
            self.byte(b' ');
            self.number(*number);
        }
        self.byte(b'\n');
    }

    // Adds a space and a shape, if the grid has its place.
    fn shape(&mut self, grid: &[u8], place: usize, shape: usize)
        requires { Shows grid.now (place + 1) self.old (shape_text grid.now place shape) }
        ensures { Adds self.old (shape_text grid.now place shape) self.new }
    {
        if grid[place] == 1 {
            self.byte(b' ');
            self.number(shape);
        }
    }

    // Adds the shapes of the card whose row starts at `base`.
    fn shapes(&mut self, grid: &[u8], base: usize, shapes: usize)
        requires { Shows grid.now (base + shapes) self.old (shapes_text grid.now base shapes) }
        ensures { Adds self.old (shapes_text grid.now base shapes) self.new }
    {
        for shape in 0..shapes {
            self.shape(grid, base + shape, shape);
        }
    }

    // Adds a card's line.
    fn card(&mut self, grid: &[u8], shapes: usize, n: usize)
        requires { Shows grid.now (n * shapes + shapes) self.old (card_line grid.now shapes n) }
        ensures { Adds self.old (card_line grid.now shapes n) self.new }
    {
        self.bytes(b"card ");
        self.number(n);
        self.byte(b':');
        self.shapes(grid, n * shapes, shapes);
        self.byte(b'\n');
    }

    // Adds the lines of the cards below a number.
    pub fn cards(&mut self, grid: &[u8], shapes: usize, cards: usize)
        requires { Shows grid.now (cards * shapes) self.old (card_lines grid.now shapes cards) }
        ensures { Adds self.old (card_lines grid.now shapes cards) self.new }
    {
        for n in 0..cards {
            self.card(grid, shapes, n);
        }
    }
}

// Writes a line into a buffer from a place on. Returns the next place.
fn put_line_at(out: &mut [u8], at: usize, word: &[u8], numbers: &[usize]) -> usize
    requires { Room out.old at (line_text word.now numbers.now) }
    ensures { Wrote out.old at (line_text word.now numbers.now) out.new result }
{
    let mut text = Writer { out, end: at };
    text.line(word, numbers);
    text.end
}

// Writes a line to the front of a buffer. Returns its number of bytes.
pub fn put_line(out: &mut [u8], word: &[u8], numbers: &[usize]) -> usize
    requires { Room out.old 0 (line_text word.now numbers.now) }
    ensures { Wrote out.old 0 (line_text word.now numbers.now) out.new result }
{
    put_line_at(out, 0, word, numbers)
}

// Writes the line of a refusal, number and place, into a buffer from a place on. Returns the next place.
pub fn put_refused(out: &mut [u8], at: usize, number: usize, place: usize) -> usize
    requires { Room out.old at (refused_line number place) }
    ensures { Wrote out.old at (refused_line number place) out.new result }
{
    put_line_at(out, at, b"refused", &[number, place])
}

// Writes the line of a refusal to the front of a buffer. Returns its number of bytes.
pub fn put_refusal(out: &mut [u8], refusal: Refusal) -> usize
    requires { Room out.old 0 (refused_line (number refusal.0) refusal.1) }
    ensures { Wrote out.old 0 (refused_line (number refusal.0) refusal.1) out.new result }
{
    put_refused(out, 0, usize::from(refusal.0.number()), refusal.1)
}
