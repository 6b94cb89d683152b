// Bytes as pairs of hexadecimal digits, `-` where there are none.
use crate::misread::Misread;
use hex::FromHexError;
use std::alloc::{AllocError, Global};
use std::fmt;

#[derive(Clone, Copy)]
pub struct Hexadecimal<'a>(pub &'a [u8]);

impl<'a> fmt::Display for Hexadecimal<'a> {
    fn fmt<W: fmt::Write>(&self, f: &mut fmt::Formatter<W>) -> fmt::Result {
        if self.0.is_empty() {
            return f.write_str("-");
        }
        for byte in self.0 {
            write!(f, "{byte:02x}")?;
        }
        Ok(())
    }
}

impl From<FromHexError> for Misread {
    fn from(error: FromHexError) -> Misread {
        match error {
            FromHexError::OutOfMemory => Misread::Memory(AllocError),
            _ => Misread::Hexadecimal,
        }
    }
}

// The bytes that a word of pairs of digits says.
pub fn bytes_in(heap: Global, word: &str) -> Result<Vec<u8>, Misread> {
    if word == "-" {
        return Ok(Vec::new(heap));
    }
    // Before any memory is taken, so that a word with another character takes none.
    if !word.as_bytes().iter().all(|byte| byte.is_ascii_hexdigit()) {
        return Err(Misread::Hexadecimal);
    }
    Ok(hex::decode(heap, word)?)
}
