// Why a file is refused, and where: the cause, the place in the file, and the layer of checks.
ghost use Rattle.terms.specs.Codes.{fields_fault, file_fault, layer_number, session_fault};
ghost use Rattle.std.specs.Prelude.{◌≡◌};

use crate::refusal::Refusal;

// The layers of checks: of a record's own bytes, of the file, of the file against the session.
#[derive(Clone, Copy, Debug, PartialEq, Eq)]
pub enum Layer {
    Fields = 1,
    File = 2,
    Session = 3,
}

// The number that answers carry for it.
impl From<Layer> for u8 {
    ghost from_gives = { λ layer number. number ≡ layer_number layer };

    fn from(layer: Layer) -> u8 {
        layer as u8
    }
}

#[derive(Clone, Copy, Debug, PartialEq, Eq)]
pub struct Fault {
    pub cause: Refusal,
    // The first byte of the record at fault; 0 where the whole file is.
    pub place: usize,
    pub layer: Layer,
}

// Three constructors and none with the layer as an argument: a call says its layer in its name.
impl Fault {
    // A fault of a record's own bytes.
    pub fn in_fields(cause: Refusal, place: usize) -> Fault
        ensures { result ≡ fields_fault cause place }
    {
        Fault {
            cause,
            place,
            layer: Layer::Fields,
        }
    }

    // A fault of a record among the others of its file.
    pub fn in_file(cause: Refusal, place: usize) -> Fault
        ensures { result ≡ file_fault cause place }
    {
        Fault {
            cause,
            place,
            layer: Layer::File,
        }
    }

    // A fault of the whole file against the session.
    pub fn in_session(cause: Refusal) -> Fault
        ensures { result ≡ session_fault cause }
    {
        Fault {
            cause,
            place: 0,
            layer: Layer::Session,
        }
    }
}
