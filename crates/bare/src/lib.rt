// How many cards of a sheet have some link and no shape.
#![tactic(auto)]

ghost use Rattle.std.specs.Prelude.{◌≡◌};
ghost use Rattle.board.specs.Grid.{on};
ghost use Rattle.sheet.specs.Sheet.{Sheet};
ghost use Rattle.typing.specs.Largest.{bare_cards};
ghost use Rattle.bare.specs.Rows.{CountedAs, Rows};

use board::all_off;
use links::mark_linked;
use sheet::Extent;
use words::MAX_CARDS;

// Counts the cards with some link and no shape.
pub fn count_bare(script: &[u16], e: Extent, grid: &[u8]) -> usize
    requires { Rows script.now e grid.now }
    ensures { (s : Sheet) → CountedAs s script.now e → result ≡ bare_cards s (on grid.now) }
{
    let mut linked = [0u8; MAX_CARDS];
    mark_linked(script, usize::from(e.links), &mut linked);
    let shapes = usize::from(e.shapes);
    let mut bare = 0;
    for n in 0..usize::from(e.cards) {
        let base = n * shapes;
        let end = base + shapes;
        if linked[n] == 1 && all_off(&grid[base..end]) {
            bare += 1;
        }
    }
    bare
}
