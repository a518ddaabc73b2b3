// The queue of a search: the places that it has found, in their order, in a buffer that is lent.
ghost use Rattle.std.specs.Prelude.{◌≡◌, ◌+◌, ◌<◌, ◌≤◌, length, get_or, set};
ghost use Rattle.words.specs.Sizes.{max_grid};
ghost use Rattle.board.specs.Work.{work, strike_one, Lent, Strikable};
ghost use Rattle.board.specs.Listing.{Listed};

#[derive(Drop)]
pub struct Queue<'a> {
    pub places: &'a mut [u16],
    pub len: usize,
}

impl<'a> Queue<'a> {
    // A queue with no place.
    pub fn new(places: &'a mut [u16]) -> Queue<'a>
        ensures len { result.len ≡ 0 }
        ensures places { result.places.now ≡ places.entry.now }
        ensures lent { result.places.ghost_name ≡ places.entry.ghost_name }
    {
        Queue { places, len: 0 }
    }

    // Queues a place.
    pub fn push(&mut self, place: usize)
        requires { (self.old.len < length self.old.places.now) × (place < max_grid) }
        ensures places { self.new.places.now ≡ set self.old.places.now self.old.len place }
        ensures len { self.new.len ≡ self.old.len + 1 }
        ensures lent { self.new.places.ghost_name ≡ self.old.places.ghost_name }
    {
        let end = self.len;
        self.places[end] = place as u16;
        self.len = end + 1;
    }

    // The place that was queued as number `i`.
    pub fn at(&self, i: usize) -> usize
        requires { i < length self.now.places.now }
        ensures { result ≡ get_or self.now.places.now i 0 }
    {
        usize::from(self.places[i])
    }
}

// Strikes a place and queues it, if it still stands.
pub fn strike_one(grid: &mut [u8], queue: &mut Queue, place: usize)
    requires { Strikable (work grid.old queue.old) place }
    ensures { work grid.new queue.new ≡ strike_one (work grid.old queue.old) place }
{
    if grid[place] == 1 {
        grid[place] = 0;
        queue.push(place);
    }
}

// Queues the places that are not on, and no others.
pub fn list_off(grid: &[u8], queue: &mut Queue)
    requires { Lent grid.now queue.old.places.now }
    ensures listed { Listed grid.now queue.new.places.now queue.new.len (length grid.now) }
    ensures long { length queue.new.places.now ≡ length queue.old.places.now }
    ensures lent { queue.new.places.ghost_name ≡ queue.old.places.ghost_name }
{
    queue.len = 0;
    for (place, byte) in grid.iter().enumerate() {
        if *byte != 1 {
            queue.push(place);
        }
    }
}
