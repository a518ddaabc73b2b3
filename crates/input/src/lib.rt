// The printer's input: finding its three sections in bytes, and decoding their words. They also start the input of
// another program.
#![tactic(auto)]

ghost use Rattle.std.specs.Prelude.{◌≡◌, ◌+◌, ◌*◌, ◌/◌, ◌^◌, ◌≤◌, ◌<◌, length, Some, MatchOption};
ghost use Rattle.words.specs.Bounded.{Bounded};
ghost use Rattle.input.specs.Input.{word_at, words_from, section_end, read_front, read_input};
ghost use Rattle.input.specs.Machine.{Decodes, Decoded, words_in, part_in, sections_read, SectionFound, AllWithin};
ghost use Rattle.input.specs.Machine.{FrontInside, SectionsInside};

use words::MAX_INPUT;

// Where a section's words start in the input, and how many they are.
#[derive(Clone, Copy)]
pub struct Section {
    pub at: usize,
    pub count: usize,
}

// The sections of an input.
#[derive(Clone, Copy)]
pub struct Sections {
    pub template: Section,
    pub script: Section,
    pub bookings: Section,
}

// The words of an input's sections.
#[derive(Clone, Copy)]
pub struct Lists<'a> {
    pub template: &'a [u16],
    pub script: &'a [u16],
    pub bookings: &'a [u16],
}

// The word at a byte: its low byte comes first.
pub fn word_at(bytes: &[u8], at: usize) -> u16
    requires { at + 2 ≤ length bytes.now }
    ensures { result ≡ word_at bytes.now at }
{
    u16::from_le_bytes([bytes[at], bytes[at + 1]])
}

// Puts `count` words from the byte `at` on into the front of a buffer.
pub fn decode(bytes: &[u8], at: usize, count: usize, words: &mut [u16])
    requires { Decodes bytes.now at count words.old }
    ensures { Decoded bytes.now at count words.new }
{
    for i in 0..count {
        words[i] = word_at(bytes, at + 2 * i);
    }
}

// Decodes the words of the bytes to the front of a buffer, which lends them.
pub fn decode_all<'a>(bytes: &[u8], room: &'a mut [u16]) -> &'a [u16]
    requires { length bytes.now / 2 ≤ length room.old }
    ensures { result.now ≡ words_from bytes.now 0 (length bytes.now / 2) }
{
    let count = bytes.len() / 2;
    decode(bytes, 0, count, room);
    &room[..count]
}

// How many words a section has whose count stands at a byte.
pub fn count_at(bytes: &[u8], at: usize) -> usize
    requires { at + 2 ≤ length bytes.now }
    ensures { Bounded 65536 (word_at bytes.now at) result }
{
    usize::from(word_at(bytes, at))
}

impl Section {
    // The byte past its words.
    pub fn end(&self) -> usize
        requires { self.now.at + 2 * self.now.count < 2 ^ 64 }
        ensures { result ≡ self.now.at + 2 * self.now.count }
    {
        self.at + 2 * self.count
    }

    // Its words, among those of all bytes.
    fn part<'a>(&self, words: &'a [u16]) -> &'a [u16]
        requires { self.now.at / 2 + self.now.count ≤ length words.now }
        ensures { result.now ≡ part_in words.now self.now }
    {
        let start = self.at / 2;
        &words[start..start + self.count]
    }
}

impl Sections {
    // The words of each, decoded to a buffer, which lends them.
    pub fn decode<'a>(&self, bytes: &[u8], room: &'a mut [u16]) -> Lists<'a>
        requires inside { AllWithin bytes.now self.now }
        requires room { length bytes.now / 2 ≤ length room.old }
        ensures template { result.template.now ≡ words_in bytes.now self.now.template }
        ensures script { result.script.now ≡ words_in bytes.now self.now.script }
        ensures bookings { result.bookings.now ≡ words_in bytes.now self.now.bookings }
    {
        let words = decode_all(bytes, room);
        Lists {
            template: self.template.part(words),
            script: self.script.part(words),
            bookings: self.bookings.part(words),
        }
    }
}

// The section whose count stands at a byte, if the bytes have all of it.
fn section_at(bytes: &[u8], at: usize) -> Option<Section>
    requires { at ≤ length bytes.now }
    ensures { MatchOption result (length bytes.now < section_end bytes.now at) (SectionFound bytes.now at) }
{
    if bytes.len() < at + 2 {
        return None;
    }
    let section = Section {
        at: at + 2,
        count: count_at(bytes, at),
    };
    if bytes.len() < section.end() {
        return None;
    }
    Some(section)
}

// Finds the three sections at the front of an input of at most so many bytes.
pub fn find_front(bytes: &[u8], most: usize) -> Option<Sections>
    ensures reads { read_front most bytes.now ≡ sections_read bytes.now result }
    ensures inside { FrontInside most bytes.now result }
{
    if most < bytes.len() {
        return None;
    }
    let template = section_at(bytes, 0)?;
    let script = section_at(bytes, template.end())?;
    let bookings = section_at(bytes, script.end())?;
    Some(Sections {
        template,
        script,
        bookings,
    })
}

// Finds the three sections of the printer's input.
pub fn find_sections(bytes: &[u8]) -> Option<Sections>
    ensures reads { read_input bytes.now ≡ sections_read bytes.now result }
    ensures inside { SectionsInside bytes.now result }
{
    let sections = find_front(bytes, MAX_INPUT)?;
    if sections.bookings.end() < bytes.len() {
        return None;
    }
    Some(sections)
}
