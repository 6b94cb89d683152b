// The words of a line, and the numbers among them.
use crate::misread::Misread;
use std::alloc::{AllocError, Global};
use std::str::FromStr;

// The words of a line.
pub fn words_of<'a>(heap: Global, line: &'a str) -> Result<Vec<&'a str>, AllocError> {
    line.split_ascii_whitespace().collect(heap)
}

// The number that a word is, if it fits the type that the call takes.
pub fn number<N: FromStr>(word: &str) -> Result<N, Misread>
where
    N::Err: Drop,
{
    word.parse::<N>().map_err(|_| Misread::Number)
}

// The numbers that the words are.
pub fn numbers(heap: Global, words: &[&str]) -> Result<Vec<u16>, Misread> {
    words
        .iter()
        .map(|word| number::<u16>(word))
        .try_collect(heap)
}
