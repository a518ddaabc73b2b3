// The place of a pair in a grid, and back from it its card: the place divided by the number of shapes, with no division
// on the usual way.
ghost use Rattle.std.specs.Prelude.{◌≡◌, ℕ, ◌+◌, ◌*◌, ◌/◌, ◌≤◌, ◌<◌};
ghost use Rattle.words.specs.Limits.{max_shapes};
ghost use Rattle.words.specs.Sizes.{max_grid};
ghost use Rattle.walks.specs.Cards.{scale, Reciprocal};

use words::{Card, MAX_GRID, MAX_SHAPES, Shape};

// What a reciprocal is scaled by, as specs/Cards has it.
const SCALE: usize = MAX_SHAPES * MAX_GRID;

// The place of the pair of a card and a shape.
pub fn pair_place(card: Card, shapes: usize, shape: Shape) -> usize
    requires { shapes ≤ max_shapes }
    ensures { result ≡ card.0 * shapes + shape.0 }
{
    card.0 as usize * shapes + shape.0 as usize
}

// The reciprocal of the number of shapes, scaled and rounded up.
pub fn reciprocal(shapes: usize) -> usize
    requires { (0 < shapes) × (shapes ≤ max_shapes) }
    ensures { Reciprocal shapes result }
{
    SCALE / shapes + 1
}

// The card of the pair at place q, by the reciprocal of the number of shapes.
pub fn scaled_card(q: usize, factor: usize) -> usize
    requires { (q < max_grid) × (factor ≤ scale + 1) }
    ensures { (shapes : ℕ) → Reciprocal shapes factor → result ≡ q / shapes }
{
    q * factor / SCALE
}

// The card of the pair at place q, by a guess: the processor goes on with one that is mostly right before it knows q.
// The division keeps the test a jump: something cheaper would be reckoned beside the guess, and waited for.
pub fn guessed_card(q: usize, shapes: usize, guess: usize) -> usize
    requires { (0 < shapes) × (shapes ≤ max_shapes) × (guess < 65536) }
    ensures { result ≡ q / shapes }
{
    let base = guess * shapes;
    if base <= q && q < base + shapes {
        return guess;
    }
    q / shapes
}
