// The bytes that a command is given, and the buffers that it fills.
use crate::hexadecimal::bytes_in;
use crate::misread::Misread;
use std::alloc::Global;
use std::fs;

// What a buffer holds before each call, so that an answer shows which bytes the call has put.
const UNTOUCHED: u8 = 0xEE;

const BUFFER_MOST: usize = 16_777_216;

// The bytes of a word: hexadecimal, or those of the file at the path behind an @.
pub fn bytes_of(rt: &HostRuntime, word: &str) -> Result<Vec<u8>, Misread> {
    match word.strip_prefix('@') {
        Some(path) => fs::read(rt, path).map_err(|_| Misread::Path),
        None => bytes_in(rt.alloc(), word),
    }
}

// A buffer of so many bytes.
pub fn buffer(heap: Global, size: usize) -> Result<Vec<u8>, Misread> {
    if size > BUFFER_MOST {
        return Err(Misread::Buffer);
    }
    Ok(vec![in heap; UNTOUCHED; size]?)
}
