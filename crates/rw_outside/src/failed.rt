// What a source or a sink answers where it fails.
use thiserror::Error;

/// A call of a source or a sink failed. It took or appended nothing.
#[derive(Clone, Copy, Debug, PartialEq, Eq, Error)]
#[error("the call failed")]
pub struct Failed;
