//! The one fault of a device.

/// A call of a device failed. Which bytes the device had taken or given before the call is not
/// changed by it.
#[derive(Clone, Copy, Debug, PartialEq, Eq)]
pub struct DeviceFault;
