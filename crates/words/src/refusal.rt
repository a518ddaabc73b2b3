// What an operation refuses its input for (docs/FORMAT.md, "Operations"): the fault, by the format's number, and its
// place.
ghost use Rattle.std.specs.Prelude.{◌≡◌};
ghost use Rattle.words.specs.Refused.{number};

// A fault of the format, with its number there.
#[derive(Clone, Copy, Debug, PartialEq, Eq)]
pub enum Fault {
    // The template is too short or too long.
    TemplateLength = 1,
    // It has no kinds, or too many.
    KindCount = 2,
    // It has no shapes, or too many.
    ShapeCount = 3,
    // A word of a shape is missing.
    MissingWord = 4,
    // No part has the code.
    UnknownCode = 5,
    // A part lies too deep.
    Depth = 6,
    // A link's kind is not one of the template's.
    UnknownKind = 7,
    // A shape names a kind twice, the same way.
    RepeatedKind = 8,
    // A link's shape is not one of the template's.
    UnknownShape = 9,
    // A link's limits are out of range.
    LinkLimits = 10,
    // A group has too few parts, or too many.
    GroupSize = 11,
    // Words are left after a part, or after the last shape.
    WordsLeft = 12,
    // The script has not the words that its counts ask for.
    ScriptLength = 20,
    // It has too many cards.
    CardCount = 21,
    // It has too many links.
    LinkCount = 22,
    // A link starts at no card, or leads to none.
    LinkCard = 23,
    // A link's kind is not one of the template's.
    LinkKind = 24,
    // A link is not above the one before it.
    LinkOrder = 25,
    // A list has not the words that its count asks for.
    ListLength = 30,
    // It has too many bookings.
    BookingCount = 31,
    // A booking's card is not one of the script's.
    BookedCard = 32,
    // A booking's shape is not one of the template's.
    BookedShape = 33,
    // A grid, or the buffer for a list, has another length.
    BufferLength = 40,
    // There are not two counts for each kind.
    CountsLength = 41,
    // The shape to fit is not one of the template's.
    CountedShape = 42,
    // A count is too high.
    CountRange = 43,
    // An input ends too soon, or goes on.
    InputLength = 60,
    // A byte of a grid is neither 0 nor 1.
    GridByte = 61,
    // A grid does not hold a booking.
    UnheldBooking = 63,
    // An 18 stands elsewhere than at the start of a shape.
    OpenInside = 64,
    // A booking stands in its list already.
    RepeatedBooking = 65,
    // A desk is neither of the two.
    UnknownDesk = 66,
}

// The first fault that an operation finds, and its place: the index of the word or byte at fault.
#[derive(Clone, Copy, Debug, PartialEq, Eq)]
pub struct Refusal(pub Fault, pub usize);

impl Fault {
    // The format's number.
    pub fn number(self) -> u16
        ensures { result ≡ number self }
    {
        self as u16
    }
}
