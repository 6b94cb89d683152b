// The commands of the writer.
use crate::answer::Answer;
use crate::console::Console;
use crate::draft::Draft;
use crate::misread::Misread;
use crate::records::{Reading, header_in, presentation_in, return_in};
use crate::words::number;
use memberfile::header::Header;
use std::alloc::Global;
use terms::currency::Currency;
use terms::cycle::Cycle;
use terms::file_kind::FileKind;
use wire::row::Row;
use wire::values::RawHeader;

// A header that the writer refuses, since no file has the number 0.
const OUT_OF_RANGE: Header = Header {
    kind: FileKind::Presentations,
    currency: Currency::Soles,
    cycle: Cycle::Morning,
    origin: 1,
    date: 20_000_103,
    number: 0,
};

// The header to open a file with. One out of range says nothing more, so that any other such header stands for it.
pub fn header_of(raw: RawHeader) -> Header {
    Header::try_from(raw).unwrap_or(OUT_OF_RANGE)
}

// The lines of the console have numbers alone.
pub struct Numbers;

impl Reading for Numbers {
    const HEADER: &'static str = "wopen SIZE KIND CURRENCY CYCLE ORIGIN DATE NUMBER";

    const PRESENTATION: &'static str = "wput6 TYPE OTHER REFERENCE AMOUNT COMMISSION";

    const RETURN: &'static str = "wput7 ORIGINATOR REFERENCE AMOUNT COMMISSION CAUSE";

    fn kind(word: &str) -> Result<u8, Misread> {
        number(word)
    }

    fn currency(word: &str) -> Result<u8, Misread> {
        number(word)
    }

    fn cycle(word: &str) -> Result<u8, Misread> {
        number(word)
    }

    fn amount(word: &str) -> Result<u64, Misread> {
        number(word)
    }
}

impl Console {
    // The file of the writer that is open.
    fn open_draft(&mut self) -> Result<&mut Draft, Misread> {
        self.draft.as_mut().ok_or(Misread::NoFileOpen)
    }

    pub(crate) fn open_file(&mut self, heap: Global, words: &[&str]) -> Result<Answer, Misread> {
        let [size, rest @ ..] = words else {
            return Err(Misread::Usage(Numbers::HEADER));
        };
        let size = number(size)?;
        let header = header_of(header_in::<Numbers>(rest)?);
        if self.draft.is_some() {
            return Err(Misread::FileOpen);
        }
        let draft = Draft::new(heap, size, header);
        let newest = draft.replay(heap)?.newest;
        self.draft = Some(draft);
        Ok(Answer::Checked(newest))
    }

    pub(crate) fn open_batch(&mut self, heap: Global, words: &[&str]) -> Result<Answer, Misread> {
        let [batch_number] = words else {
            return Err(Misread::Usage("wbatch NUMBER"));
        };
        let batch_number = number(batch_number)?;
        let draft = self.open_draft()?;
        draft.open_batch(heap, batch_number)?;
        Ok(Answer::Checked(draft.replay(heap)?.newest))
    }

    fn put(&mut self, heap: Global, row: Row) -> Result<Answer, Misread> {
        let draft = self.open_draft()?;
        draft.put(row)?;
        Ok(Answer::Checked(draft.replay(heap)?.newest))
    }

    pub(crate) fn put_presentation(
        &mut self,
        heap: Global,
        words: &[&str],
    ) -> Result<Answer, Misread> {
        self.put(heap, presentation_in::<Numbers>(words)?)
    }

    pub(crate) fn put_return(&mut self, heap: Global, words: &[&str]) -> Result<Answer, Misread> {
        self.put(heap, return_in::<Numbers>(words)?)
    }

    pub(crate) fn close_batch(&mut self, words: &[&str]) -> Result<Answer, Misread> {
        if !words.is_empty() {
            return Err(Misread::Usage("wclose"));
        }
        self.open_draft()?.close_batch()?;
        Ok(Answer::Done)
    }

    pub(crate) fn finish_file(&mut self, heap: Global, words: &[&str]) -> Result<Answer, Misread> {
        if !words.is_empty() {
            return Err(Misread::Usage("wfinish"));
        }
        let draft = self.open_draft()?;
        if draft.in_batch() {
            return Err(Misread::BatchOpen);
        }
        let replay = draft.replay(heap)?;
        self.draft = None;
        Ok(Answer::Written(Ok(replay.len), replay.buffer))
    }
}
