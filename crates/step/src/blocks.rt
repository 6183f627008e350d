ghost use Rattle.std.specs.Prelude.{◌≡◌, ◌+◌, ◌≤◌, ◌∷◌, length, replicate, pos};
ghost use Rattle.step.specs.Arrays.{over};
ghost use Rattle.step.specs.Promises.{PlaceFound};

use outcomes::Verdict;

// place gives an integer as a place in a store of so many words.
pub(crate) fn place(at: i64, words: usize) -> Result<usize, Verdict>
    ensures { PlaceFound result at words }
{
    usize::try_from(at)
        .ok()
        .filter(|at| *at < words)
        .ok_or(Verdict::IllegalStep)
}

// write_block writes a word and zeros over a store, from a place on.
pub(crate) fn write_block(store: &mut [i32], at: usize, first: i32, zeros: usize)
    requires { at + 1 + zeros ≤ length store.old }
    ensures { store.new ≡ over store.old at (first ∷ replicate zeros (pos 0)) }
{
    store[at] = first;
    store[at + 1..at + 1 + zeros].fill(0);
}
