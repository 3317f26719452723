//! How devices behave.

/// How a device behaves.
#[derive(Clone, Copy)]
pub struct Device {
    /// How many bytes it moves in one call at most.
    pub most: usize,
    /// After how many bytes it fails.
    pub good: usize,
    /// Whether it then takes no byte instead, as a full device may.
    pub takes_none: bool,
}

/// A device that never fails.
pub const SOUND: Device = Device {
    most: usize::MAX,
    good: usize::MAX,
    takes_none: false,
};
