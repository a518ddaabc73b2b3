// What both searches and the judge go by. Links are seen from both ends: those from a card stand side by side, those to
// it are a chain. The walks along them are laws here; each function that goes along links has its own loop.
//   card   the place of a pair, and its card from the place
//   walk   what a search goes by
#![tactic(auto)]

mod card;
mod walk;

pub use card::{guessed_card, pair_place, reciprocal, scaled_card};
pub use walk::Walk;
