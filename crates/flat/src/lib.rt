// Flat parts, nested alls of links and nothing: their interval is met along a card's links, each kind counted as it
// comes.
//   survey   where the link of each label stands
//   meet     the interval for the links of a card
#![tactic(auto)]

mod meet;
mod survey;

pub use meet::meet_card;
pub use survey::survey_part;
