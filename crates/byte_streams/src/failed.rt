//! The one error of a stream.
use thiserror::Error;

/// The source or the sink failed. It comes only in a call in which the stream's count of faults has risen.
#[derive(Clone, Copy, Debug, PartialEq, Eq, Error)]
#[error("the stream failed")]
pub struct Failed;
