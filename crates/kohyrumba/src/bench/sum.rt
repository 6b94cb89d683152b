// A checksum of what the calls answered and left, to compare with another program's.
use rules::instruments::transfers::CreditTransfers;
use session::session::{Session, Taken};
use terms::fault::Fault;

const START: u64 = 0xCBF2_9CE4_8422_2325;

const FACTOR: u64 = 0x100_0000_01B3;

#[derive(Clone, Copy)]
pub(crate) struct Sum {
    value: u64,
}

impl Sum {
    pub(crate) fn new() -> Sum {
        Sum { value: START }
    }

    pub(crate) fn value(&self) -> u64 {
        self.value
    }

    pub(crate) fn add(&mut self, number: u64) {
        self.value = (self.value ^ number).wrapping_mul(FACTOR);
    }

    pub(crate) fn add_bytes(&mut self, bytes: &[u8]) {
        for byte in bytes {
            self.add(u64::from(*byte));
        }
    }

    fn add_taken(&mut self, rows: Taken, out: &[u8]) {
        self.add(rows.taken as u64);
        self.add(rows.turned_away as u64);
        let count = rows.taken.saturating_add(rows.turned_away);
        for outcome in out.iter().take(count) {
            self.add(u64::from(*outcome));
        }
    }

    pub(crate) fn add_fault(&mut self, fault: Fault) {
        self.add(u64::from(u8::from(fault.cause)));
        self.add(u64::from(u8::from(fault.layer)));
        self.add(fault.place as u64);
    }

    // Takes the files in once more, and adds each answer with its outcomes.
    pub(crate) fn add_intakes(&mut self, session: &mut Session, files: &[Vec<u8>], out: &mut [u8]) {
        for file in files {
            match session.intake(&CreditTransfers, file, out) {
                Ok(rows) => self.add_taken(rows, out),
                Err(fault) => self.add_fault(fault),
            }
        }
    }

    // The mark of each record.
    fn add_marks(&mut self, session: &Session) {
        for number in 1..=session.held() {
            if let Ok(mark) = session.mark(number) {
                self.add(u64::from(u8::from(mark)));
            }
        }
    }

    // Marks, positions and covers.
    pub(crate) fn add_session(&mut self, session: &Session) {
        self.add_marks(session);
        for code in session.docket().roll() {
            if let Ok(position) = session.position(*code) {
                self.add(position.cast_unsigned());
            }
            if let Ok(cover) = session.cover(*code) {
                self.add(cover);
            }
        }
    }
}
