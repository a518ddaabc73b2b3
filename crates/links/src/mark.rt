// Which cards have some link.
ghost use Rattle.std.specs.Prelude.{length};
ghost use Rattle.links.specs.Marks.{LinksAmong, LinkedMarked};

use board::fill;

// Marks the cards that a link touches: 1 where one starts at the card or leads to it, else 0, whatever it was before.
#[tactic(auto, unfolding(script::specs::Link::from_at, script::specs::Link::to_at))]
pub fn mark_linked(script: &[u16], links: usize, linked: &mut [u8])
    requires { LinksAmong script.now links (length linked.old) }
    ensures { LinkedMarked script.now links (length linked.old) linked.new }
{
    fill(linked, 0);
    for i in 0..links {
        let from = usize::from(script[2 + 3 * i]);
        linked[from] = 1;
        let to = usize::from(script[4 + 3 * i]);
        linked[to] = 1;
    }
}
