// A chain of numbers, built in one pass with no sorting: each leads to the one before it with the same key.
ghost use Rattle.std.specs.Prelude.{◌≡◌, IfSome, IfNone};
ghost use Rattle.std.specs.Iterator.{at_most};
ghost use Rattle.words.specs.Chain.{Falling, Stepped};

// The numbers of a chain, the last one first: `at` is one more than the number to come, or 0, and `next` has for each
// number one more than the one before it, or 0.
#[derive(Clone, Copy)]
pub struct Chain<'a> {
    at: usize,
    next: &'a [u16],
    pub ghost falling: { Falling at next.now },
}

impl<'a> Chain<'a> {
    // From the head of a chain, one more than its last number, or 0.
    pub fn new(head: u16, next: &'a [u16]) -> Chain<'a>
        requires { Falling head next.now }
        ensures at { result.at ≡ head }
        ensures next { result.next.now ≡ next.now }
    {
        Chain {
            at: usize::from(head),
            next,
        }
    }
}

impl<'a> Iterator for Chain<'a> {
    type Item = usize;

    ghost next_gives = { λ s r t. IfNone r (s.at ≡ 0) × IfSome r (λ i. Stepped s.at s.next.now i t.at t.next.now) };

    ghost remaining = { λ s. at_most s.at };

    fn next(&mut self) -> Option<usize> {
        let i = self.at.checked_sub(1)?;
        self.at = usize::from(self.next[i]);
        Some(i)
    }
}
