// A call upon a session as a value, and its answer.
use session::session::Taken;
use terms::fault::Fault;

// Each call names its own instrument, or its own ranking rule and cover source.
#[derive(Drop)]
pub enum Call<'a, I, R, C> {
    // A file, with how many bytes of the outcome buffer it may use.
    Intake {
        instrument: &'a I,
        file: &'a [u8],
        room: usize,
    },
    Clear {
        rule: &'a R,
        source: &'a C,
    },
}

#[derive(Clone, Copy)]
pub enum Answer {
    // How many rows of the file were taken and how many got a code, or why the whole file was refused.
    Intake(Result<Taken, Fault>),
    // How many records the clearing withdrew.
    Withdrawn(usize),
}
