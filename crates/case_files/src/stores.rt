// Stores are the four stores that a machine is lent.
#[derive(Drop)]
pub(crate) struct Stores {
    pub(crate) data: Vec<i32>,
    pub(crate) heap: Vec<i32>,
    pub(crate) call: Vec<i32>,
    pub(crate) operand: Vec<i32>,
}

// digested is the digest of some words, after that of the words before them.
fn digested(before: i32, words: &[i32]) -> i32 {
    words.iter().fold(
        before,
        |digest, word| digest.wrapping_mul(31).wrapping_add(*word),
    )
}

impl Stores {
    // lent is the four stores, as a machine is lent them.
    pub(crate) fn lent(&mut self) -> machine::Stores<'_> {
        machine::Stores {
            data: self.data.as_mut_slice(),
            heap: self.heap.as_mut_slice(),
            call: self.call.as_mut_slice(),
            operand: self.operand.as_mut_slice(),
        }
    }

    // digest is a number that any other word in a store would change.
    pub(crate) fn digest(&self) -> i32 {
        let data = digested(0, &self.data);
        let heap = digested(data, &self.heap);
        let call = digested(heap, &self.call);
        digested(call, &self.operand)
    }
}
