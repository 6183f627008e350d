ghost use Rattle.machine.specs.Machines.{Suffices, contents, lengths_of};
ghost use Rattle.std.specs.Prelude.{◌≡◌, Decides};

use step::interpreter::Stores;

// LONGEST is how many words a store can have.
const LONGEST: usize = 1_048_576;

// Lengths are those of the four stores, in words.
#[derive(Clone, Copy, PartialEq, Eq, Debug)]
pub struct Lengths {
    pub(crate) data: usize,
    pub(crate) heap: usize,
    pub(crate) call: usize,
    pub(crate) operand: usize,
}

impl Lengths {
    // of gives the lengths of stores.
    pub(crate) fn of(stores: &Stores<'_>) -> Lengths
        ensures { result ≡ lengths_of (contents stores.now) }
    {
        Lengths {
            data: stores.data.len(),
            heap: stores.heap.len(),
            call: stores.call.len(),
            operand: stores.operand.len(),
        }
    }

    // suffice tells whether stores of these lengths will do for so many globals.
    pub(crate) fn suffice(self, globals: usize) -> bool
        ensures { Decides result (Suffices globals self) }
    {
        (globals..=LONGEST).contains(&self.data)
            && (1..=LONGEST).contains(&self.heap)
            && (1..=LONGEST).contains(&self.call)
            && (32..=LONGEST).contains(&self.operand)
    }
}
