use crate::fields::{bytes_in, length_field, next_field, words_in};
use crate::stores::Stores;
use std::alloc::Global;

// Case is what one execution is given.
#[derive(Drop)]
pub(crate) struct Case {
    pub(crate) object: Vec<u8>,
    pub(crate) words: Vec<i32>,
    pub(crate) stores: Stores,
    pub(crate) room: usize,
    pub(crate) budget: u64,
}

// case_in reads what a line gives. Its stores hold something, as after another execution.
// They are made when all of the line is read, so that a line that cannot be read asks for no memory.
pub(crate) fn case_in(heap: Global, given: &str) -> anyhow::Result<Case> {
    let mut fields = given.split_whitespace();
    let object = bytes_in(heap, next_field(&mut fields)?)?;
    let words = words_in(heap, next_field(&mut fields)?)?;
    let data = length_field(&mut fields)?;
    let arrays = length_field(&mut fields)?;
    let calls = length_field(&mut fields)?;
    let operands = length_field(&mut fields)?;
    let room = length_field(&mut fields)?;
    let budget = next_field(&mut fields)?.parse::<u64>()?;
    Ok(Case {
        object,
        words,
        stores: Stores {
            data: vec![in heap; 5; data]?,
            heap: vec![in heap; 6; arrays]?,
            call: vec![in heap; 7; calls]?,
            operand: vec![in heap; 8; operands]?,
        },
        room,
        budget,
    })
}
