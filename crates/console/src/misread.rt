// Why a line cannot be read.
use std::alloc::AllocError;
use thiserror::Error;

#[derive(Clone, Copy, Debug, Error, PartialEq, Eq)]
#[error("{}", self.words())]
pub enum Misread {
    Text,
    Command,
    // What the command takes.
    #[error("{words}: {form}", words = self.words(), form = .0)]
    Usage(&'static str),
    Number,
    Hexadecimal,
    Path,
    Instrument,
    Rule,
    Source,
    Buffer,
    FileOpen,
    NoFileOpen,
    BatchOpen,
    NoBatchOpen,
    Memory(#[from(alloc)] AllocError),
}

impl Misread {
    // The reason in words.
    pub fn words(self) -> &'static str {
        match self {
            Misread::Text => "the line is no UTF-8",
            Misread::Command => "no such command",
            Misread::Usage(_) => "the command has other arguments",
            Misread::Number => "a number has no digits, or does not fit",
            Misread::Hexadecimal => "bytes are pairs of hexadecimal digits, - for none, or @PATH",
            Misread::Path => "the file cannot be read from disk",
            Misread::Instrument => "an instrument is transfers or debits",
            Misread::Rule => "a rule is sending or wages",
            Misread::Source => "a source is statement or pledges",
            Misread::Buffer => "a buffer has at most 16,777,216 bytes",
            Misread::FileOpen => "a file is open: wfinish it first",
            Misread::NoFileOpen => "no file is open: wopen one first",
            Misread::BatchOpen => "a batch is open: wclose it first",
            Misread::NoBatchOpen => "no batch is open: wbatch first",
            Misread::Memory(_) => "there is no memory for it",
        }
    }
}
