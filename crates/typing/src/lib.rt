// The two typings of a script: the largest that it allows, and the smallest that holds the bookings; grids of other
// makers, which are judged; and lists of bookings, which are tidied. Here is what the calls find; the definitions are
// in specs/, the theory in proofs/.
#![tactic(auto)]

use words::{Card, Shape};

// What striking rounds found: rounds, pairs struck, cards with some link and no shape.
#[derive(Clone, Copy)]
pub struct Struck {
    pub rounds: usize,
    pub struck: usize,
    pub bare: usize,
}

// How a desk's bookings fared: the number of pairs that follow from them, or the lowest of these that is not met.
pub type Settled = Result<usize, (Card, Shape)>;

// What was found of both typings.
#[derive(Clone, Copy)]
pub struct Both {
    pub largest: Struck,
    pub smallest: Settled,
}

// What was found of the largest typing, and of each desk's smallest.
#[derive(Clone, Copy)]
pub struct Desks {
    pub largest: Struck,
    pub radio: Settled,
    pub television: Settled,
}

// The grid is accepted, or the lowest pair of it that is not met.
pub type Judged = Result<(), (Card, Shape)>;
