ghost use Rattle.std.specs.Prelude.{◌≡◌, ◌+◌, ◌^◌, ◌<◌, ◌≤◌, [], ◌∷◌, ◌++◌, length};
ghost use Rattle.console.specs.Rounds.{Pops};

use std::marker::Model;

// Ring holds up to N items, in the order in which they were pushed; the place of a popped one is used again.
// The kit's circular_buffer does the same on the heap only.
#[derive(Drop)]
pub struct Ring<T, const N: usize> {
    items: [T; N],
    first: usize,
    count: usize,
}

// Clauses see the items held, the oldest first.
impl<T, const N: usize> Model for Ring<T, N> {
    ghost use Rattle.std.specs.Prelude.{◌≡◌, ◌+◌, ◌^◌, ◌<◌, ◌≤◌, List, length};
    ghost use Rattle.console.specs.Rounds.{along};

    ghost Value = { List T };

    ghost view = { λ r. along r.first r.count r.items };

    ghost invariant = { λ r. (length r.items ≡ N) × (r.first < N) × (r.count ≤ N) × (N + N ≤ 2 ^ 64) };
}

impl<T: Copy, const N: usize> Ring<T, N> {
    // new makes an empty ring; the filler stands where no item is.
    pub fn new(filler: T) -> Ring<T, N>
        requires some { 0 < N }
        requires few { N + N ≤ 2 ^ 64 }
        ensures { result ≡ [] }
    {
        Ring {
            items: [filler; N],
            first: 0,
            count: 0,
        }
    }

    // len is the number of items.
    pub fn len(&self) -> usize
        ensures count { result ≡ length self.now }
        ensures within { result ≤ N }
    {
        self.count
    }

    // push adds an item behind the others.
    pub fn push(&mut self, item: T)
        requires { length self.old < N }
        ensures { self.new ≡ self.old ++ item ∷ [] }
    {
        self.items[(self.first + self.count) % N] = item;
        self.count += 1;
    }

    // pop removes the oldest item.
    pub fn pop(&mut self) -> Option<T>
        ensures pops { Pops result self.old self.new }
        ensures within { length self.old ≤ N }
    {
        if self.count == 0 {
            return None;
        }
        let item = self.items[self.first];
        self.first = (self.first + 1) % N;
        self.count -= 1;
        Some(item)
    }
}
