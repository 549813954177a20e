//! The error of sources and sinks.
use thiserror::Error;

/// A read failed, or a write did. What the source had left, or the sink had taken, is as before.
#[derive(Clone, Copy, Debug, PartialEq, Eq, Error)]
#[error("a read or a write failed")]
pub struct Failed;
