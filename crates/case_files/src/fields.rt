use anyhow::{Context, ensure};
use std::alloc::{AllocError, Global};
use std::str::SplitWhitespace;

// next_field is the field that comes next in a line.
pub(crate) fn next_field<'a>(fields: &mut SplitWhitespace<'a>) -> anyhow::Result<&'a str> {
    fields.next().context("a field is missing")
}

// length_field is the next field, read as a length.
pub(crate) fn length_field(fields: &mut SplitWhitespace<'_>) -> anyhow::Result<usize> {
    Ok(next_field(fields)?.parse::<usize>()?)
}

// words_in is the list of words in a field: - for none, else with commas.
pub(crate) fn words_in(heap: Global, field: &str) -> anyhow::Result<Vec<i32>> {
    if field == "-" {
        return Ok(Vec::new(heap));
    }
    field
        .split(',')
        .map(|word| -> anyhow::Result<i32> { Ok(word.parse::<i32>()?) })
        .try_collect(heap)
}

// bytes_in is the list of bytes in a field, two hex digits for each, whose letters are small.
pub(crate) fn bytes_in(heap: Global, field: &str) -> anyhow::Result<Vec<u8>> {
    let digits = field.as_bytes();
    let (pairs, odd) = digits.split_at(digits.len() - digits.len() % 2);
    ensure!(
        pairs
            .iter()
            .all(|digit| matches!(digit, b'0'..=b'9' | b'a'..=b'f')),
        "a field is not in hex"
    );
    ensure!(odd.is_empty(), "a field in hex has an odd length");
    // The library takes capitals too, which are refused above; what can still fail is memory.
    Ok(hex::decode(heap, field).map_err(|_| AllocError)?)
}
