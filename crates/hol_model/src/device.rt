// A device's failure.

/// A device has failed in a call.
#[derive(Clone, Copy, Debug, PartialEq, Eq)]
pub struct DeviceFail;
