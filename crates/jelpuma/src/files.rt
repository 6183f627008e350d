use crate::object_file::ObjectFile;
use commands::failure::Failure;
use std::fs::File;
use std::io;
use std::io::Read;

// MOST is one byte more than the longest object file has: a file that is longer is refused for its length, however long it is.
const MOST: u64 = 14 + 8_192 + 1;

// read_file gives the first bytes of a file, as many as an object file can have and one more.
pub(crate) fn read_file(rt: &HostRuntime, path: String) -> Result<ObjectFile, Failure> {
    let mut bytes = Vec::new(rt.alloc());
    // A match: the path goes into the file or into the failure, and a closure for map_err would take it from both.
    match read_into(rt, path.as_str(), &mut bytes) {
        Ok(_) => Ok(ObjectFile { path, bytes }),
        Err(error) if error.kind() == io::ErrorKind::OutOfMemory => Err(Failure::NoMemory),
        Err(_) => Err(Failure::Unreadable(path)),
    }
}

fn read_into(rt: &HostRuntime, path: &str, bytes: &mut Vec<u8>) -> io::Result<usize> {
    File::open(rt, path)?.take(MOST).read_to_end(bytes)
}
