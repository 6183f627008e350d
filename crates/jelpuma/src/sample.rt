use crate::object_file::ObjectFile;
use std::alloc::{AllocError, Global};

// SAMPLE is an object file that counts down from 3: its header, and two lines of code.
const SAMPLE: &[u8; 42] = b"MJ\x00\x00\x00\x1c\x00\x00\x00\x00\x00\x00\x00\x00\
    \x33\x00\x01\x12\x07\x02\x0f\x2e\x00\x0c\x02\x0f\x36\x1f\x00\xff\
    \x2a\xff\xf5\x16\x00\x00\x00\x0a\x0f\x38\x34\x32";

// sample is the built-in sample, as if it were read from a file.
pub(crate) fn sample(heap: Global) -> Result<ObjectFile, AllocError> {
    Ok(ObjectFile {
        path: String::from_str(heap, "the sample")?,
        bytes: SAMPLE.to_vec(heap)?,
    })
}
