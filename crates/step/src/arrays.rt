ghost use Rattle.std.specs.Prelude.{◌≡◌, ◌<◌, ◌≤◌, length, IfOk};
ghost use Rattle.step.specs.Arrays as spec;
ghost use Rattle.step.specs.Promises.{ElementFound, Performed};

use crate::blocks::{place, write_block};
use crate::interpreter::Interpreter;
use crate::registers::{Effect, Element};
use instructions::Instruction;
use outcomes::Verdict;
use words::bytes::{byte_of, low_byte, with_byte};
use words::printing::Kind;

// array_words gives the words of an array of so many elements.
fn array_words(kind: Kind, n: usize) -> usize
    requires { n < 4294967296 }
    ensures { result ≡ spec.array_words kind n }
{
    match kind {
        Kind::Int => n + 1,
        Kind::Char => n.div_ceil(4) + 1,
    }
}

// element_word gives how many words behind the length word an element stands.
fn element_word(kind: Kind, index: usize) -> usize
    requires { index < 4294967296 }
    ensures value { result ≡ spec.element_word kind index }
    ensures bound { result ≤ 4294967296 }
{
    match kind {
        Kind::Int => index + 1,
        Kind::Char => index / 4 + 1,
    }
}

// element_in gives an element out of its word.
fn element_in(kind: Kind, index: usize, word: i32) -> i32
    ensures { result ≡ spec.element_in kind index word }
{
    match kind {
        Kind::Int => word,
        Kind::Char => byte_of(word, index) as i32,
    }
}

// with_element gives a word with an element of it replaced.
fn with_element(kind: Kind, index: usize, value: i32, word: i32) -> i32
    ensures { result ≡ spec.with_element kind index value word }
{
    match kind {
        Kind::Int => value,
        Kind::Char => with_byte(word, index, low_byte(value)),
    }
}

impl Interpreter<'_> {
    // new_array performs the making of an array.
    pub(crate) fn new_array(&mut self, kind: Kind, next: u16) -> Result<Effect, Verdict>
        ensures { Performed (Instruction.NewArray kind) next result self.old self.new }
    {
        let [elements] = self.uppermost::<1>()?;
        if elements < 0 {
            return Err(Verdict::NegativeLength);
        }
        let words = array_words(kind, elements as usize);
        if self.heap.len() - self.free < words {
            return Err(Verdict::HeapExhausted);
        }
        write_block(self.heap, self.free, elements, words - 1);
        self.operand[self.height - 1] = self.free as i32;
        self.free += words;
        self.pc = next as i32;
        Ok(Effect::Moved)
    }

    // element finds the heap word of an array's element.
    fn element(&self, kind: Kind, reference: i32, index: i32) -> Result<Element, Verdict>
        ensures found { ElementFound kind reference index self.now.free self.now.heap.now result }
        ensures within { IfOk result (λ e. e.word < self.now.free) }
    {
        if reference == 0 {
            return Err(Verdict::NullReference);
        }
        if index < 0 {
            return Err(Verdict::IndexOutOfRange);
        }
        let at = place(reference as i64, self.free)?;
        if index >= self.heap[at] {
            return Err(Verdict::IndexOutOfRange);
        }
        let index = index as usize;
        let word = at + element_word(kind, index);
        if word >= self.free {
            return Err(Verdict::IllegalStep);
        }
        Ok(Element { word, index })
    }

    // array_load performs a load of an element.
    pub(crate) fn array_load(&mut self, kind: Kind, next: u16) -> Result<Effect, Verdict>
        ensures { Performed (Instruction.ArrayLoad kind) next result self.old self.new }
    {
        let [reference, index] = self.uppermost::<2>()?;
        let at = self.element(kind, reference, index)?;
        self.operand[self.height - 2] = element_in(kind, at.index, self.heap[at.word]);
        self.height -= 1;
        self.pc = next as i32;
        Ok(Effect::Moved)
    }

    // array_store performs a store to an element.
    pub(crate) fn array_store(&mut self, kind: Kind, next: u16) -> Result<Effect, Verdict>
        ensures { Performed (Instruction.ArrayStore kind) next result self.old self.new }
    {
        let [reference, index, value] = self.uppermost::<3>()?;
        let at = self.element(kind, reference, index)?;
        self.heap[at.word] = with_element(kind, at.index, value, self.heap[at.word]);
        self.height -= 3;
        self.pc = next as i32;
        Ok(Effect::Moved)
    }

    // array_length performs a load of an array's length.
    pub(crate) fn array_length(&mut self, next: u16) -> Result<Effect, Verdict>
        ensures { Performed Instruction.ArrayLength next result self.old self.new }
    {
        let [reference] = self.uppermost::<1>()?;
        if reference == 0 {
            return Err(Verdict::NullReference);
        }
        let at = place(reference as i64, self.free)?;
        self.operand[self.height - 1] = self.heap[at];
        self.pc = next as i32;
        Ok(Effect::Moved)
    }
}
