// A member file from a readable list of its records, a record to a line.
use crate::reading::Listing;
use crate::why::{Why, Wrong};
use console::console::is_silent;
use console::console::writing::header_of;
use console::draft::Draft;
use console::misread::Misread;
use console::records::{header_in, presentation_in, return_in};
use console::words::{number, words_of};
use memberfile::check::FILE_MOST_BYTES;
use std::alloc::Global;
use wire::row::Row;

// The writer's answer to the newest line.
fn checked(heap: Global, draft: &Draft) -> Result<(), Why> {
    Ok(draft.replay(heap)?.newest?)
}

fn begin(heap: Global, draft: &mut Option<Draft>, words: &[&str]) -> Result<(), Why> {
    if draft.is_some() {
        return Err(Why::Misread(Misread::FileOpen));
    }
    let header = header_of(header_in::<Listing>(words)?);
    let begun = Draft::new(heap, FILE_MOST_BYTES, header);
    let answer = checked(heap, &begun);
    *draft = Some(begun);
    answer
}

fn begin_batch(heap: Global, draft: &mut Option<Draft>, words: &[&str]) -> Result<(), Why> {
    let [batch_number] = words else {
        return Err(Why::Misread(Misread::Usage("batch NUMBER")));
    };
    let batch_number = number(batch_number)?;
    let draft = draft.as_mut().ok_or(Why::NoFileLine)?;
    if draft.in_batch() {
        draft.close_batch()?;
    }
    draft.open_batch(heap, batch_number)?;
    checked(heap, draft)
}

fn put(heap: Global, draft: &mut Option<Draft>, row: Row) -> Result<(), Why> {
    let draft = draft.as_mut().ok_or(Why::NoFileLine)?;
    draft.put(row)?;
    checked(heap, draft)
}

fn enter(heap: Global, draft: &mut Option<Draft>, line: &str) -> Result<(), Why> {
    if is_silent(line) {
        return Ok(());
    }
    let words = words_of(heap, line)?;
    let [command, rest @ ..] = words.as_slice() else {
        return Ok(());
    };
    match *command {
        "file" => begin(heap, draft, rest),
        "batch" => begin_batch(heap, draft, rest),
        "present" => put(heap, draft, presentation_in::<Listing>(rest)?),
        "return" => put(heap, draft, return_in::<Listing>(rest)?),
        _ => Err(Why::Misread(Misread::Command)),
    }
}

// Closes the last batch, and gives the bytes of the file.
fn finish(heap: Global, draft: Option<Draft>) -> Result<Vec<u8>, Why> {
    let mut draft = draft.ok_or(Why::NoFileLine)?;
    if draft.in_batch() {
        draft.close_batch()?;
    }
    let replay = draft.replay(heap)?;
    let mut bytes = replay.buffer;
    bytes.truncate(replay.len);
    Ok(bytes)
}

// The member file that a list says, or what is wrong with which of its lines.
pub fn file_of(heap: Global, text: &str) -> Result<Vec<u8>, Wrong> {
    let mut draft = None;
    let mut last = 0;
    for (line, words) in (1..usize::MAX).zip(text.lines()) {
        enter(heap, &mut draft, words).map_err(|why| Wrong { line, why })?;
        last = line;
    }
    finish(heap, draft).map_err(|why| Wrong { line: last, why })
}
