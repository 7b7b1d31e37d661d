// What numbers from outside may not be.
use thiserror::Error;

// A number for which there is no value.
#[derive(Clone, Copy, PartialEq, Eq, Debug, Error)]
#[error("a number out of its range")]
pub struct OutOfRange;
