// The tally of rounds and strikes, and the thin round closer.
#![tactic(auto)]

ghost use Rattle.std.specs.Prelude.{◌≡◌, ◌≤◌};
ghost use Rattle.words.specs.Sizes.{max_grid};
ghost use Rattle.tally.specs.Tally.{closed, HeadTally};

// Rounds and pairs struck.
#[derive(Clone, Copy)]
pub struct Tally {
    pub rounds: usize,
    pub struck: usize,
}

impl Tally {
    // The thin round closer brings the lent tally up to date: one round more, and the pairs struck so far.
    pub fn close_round(&mut self, struck: usize)
        requires { self.old.rounds ≤ max_grid }
        ensures { self.new ≡ closed self.old struck }
    {
        self.rounds += 1;
        self.struck = struck;
    }

    // At the head of the queue: where the head has come to the last strike of the rounds closed, another is over.
    pub fn at_head(&mut self, head: usize, tail: usize)
        requires { self.old.rounds ≤ max_grid }
        ensures { HeadTally self.old head tail self.new }
    {
        if head == self.struck {
            self.close_round(tail);
        }
    }
}
