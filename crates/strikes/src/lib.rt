// The steps of the search backwards: what needs one pair is struck. Linear in the links of its card times shapes.
//   index     a half of the table's places by kind and shape named
//   strike    the pairs that need one
#![tactic(auto)]

mod index;
mod strike;

pub use index::{HALF_TABLE, NameIndex, index_names};
pub use strike::{strike_needing, strike_sources};
