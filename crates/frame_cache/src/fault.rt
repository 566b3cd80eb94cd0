//! Why a call on frames is refused.

use thiserror::Error;

/// No frame was free when it was looked at.
#[derive(Clone, Copy, Debug, PartialEq, Eq, Error)]
#[error("no frame is free")]
pub struct NoFrame;

/// The frame doesn't give the name.
#[derive(Clone, Copy, Debug, PartialEq, Eq, Error)]
#[error("the name does not lie in the frame")]
pub struct Missed;
