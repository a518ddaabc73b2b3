// The format's limits, and the numbers of cards, kinds and shapes: what every crate starts with.
//   chain     the numbers of a chain, each of which leads to the one before it
//   refusal   what an operation refuses its input for
#![tactic(auto)]

mod chain;
mod refusal;

pub use chain::Chain;
pub use refusal::{Fault, Refusal};

// The limits, as specs/Limits and specs/Sizes have them.
pub const MAX_KINDS: usize = 64;

pub const MAX_LABELS: usize = 2 * MAX_KINDS;

pub const MAX_SHAPES: usize = 32;

pub const MAX_TEMPLATE: usize = 4096;

pub const MAX_DEPTH: usize = 12;

pub const MIN_GROUP: u16 = 2;

pub const MAX_GROUP: u16 = 16;

pub const MAX_COUNT: u16 = 8192;

pub const NO_LIMIT: u16 = 65535;

pub const MAX_CARDS: usize = 1024;

pub const MAX_LINKS: usize = 8192;

pub const MAX_BOOKINGS: usize = 1024;

pub const MAX_INPUT: usize = 65536;

pub const TABLE_SIZE: usize = MAX_SHAPES * MAX_LABELS;

pub const MAX_GRID: usize = MAX_CARDS * MAX_SHAPES;

// The number of a card: it counts the script's cards from 0.
#[derive(Clone, Copy)]
pub struct Card(pub u16);

// The number of a kind: it counts the template's kinds from 0.
#[derive(Clone, Copy)]
pub struct Kind(pub u16);

// The number of a shape: it counts the template's shapes from 0.
#[derive(Clone, Copy)]
pub struct Shape(pub u16);
