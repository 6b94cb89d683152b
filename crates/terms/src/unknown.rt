// A number that names nothing.
use thiserror::Error;

#[derive(Clone, Copy, Debug, PartialEq, Eq, Error)]
#[error("{0} is the number of none of them")]
pub struct UnknownNumber(pub u8);
