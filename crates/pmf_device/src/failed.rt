//! What a call on a device answers where the device refused.

/// A read or a write that the device refused. The call that answers it moved no byte.
#[derive(Clone, Copy, Debug, PartialEq, Eq)]
pub struct Failed;
