//! The failure of a device.

use thiserror::Error;

/// A source could not be read, or a sink could not be written.
#[derive(Clone, Copy, Debug, PartialEq, Eq, Error)]
#[error("a device failed")]
pub struct DeviceFailed;
