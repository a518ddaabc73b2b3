// Where the links of a card stand and how they are counted.
//   index     where the links from each card start, and the links to each card as a chain
//   count     how many links of a kind a card has, from it and to it
//   mark      which cards have some link
#![tactic(auto)]

mod count;
mod index;
mod mark;

pub use count::{KindCount, count_arriving, count_on, run_length};
pub use index::{CardLinks, Chains, chain, leaving_links, link_starts};
pub use mark::mark_linked;
