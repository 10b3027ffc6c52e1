//! Why a device isn't formatted.
ghost use Rattle.std.specs.Prelude.{◌≡◌};
ghost use Rattle.lfs_format.specs.Faults.{format_fault_name};

/// Why a device isn't formatted.
#[derive(Clone, Copy, Debug, PartialEq, Eq)]
pub enum FormatFault {
    /// No volume has so many segments, or no layout has this version.
    Inval,
    /// The device has too few sectors.
    TooSmall,
    /// A device call failed. Where the device's units are sectors, it holds what stood there, with
    /// sectors 0, 1 and 128 that may be cleared, or no checkpoint, or the empty volume.
    Device,
}

impl FormatFault {
    pub fn name(self) -> &'static str
        ensures { result.now ≡ format_fault_name self }
    {
        match self {
            FormatFault::Inval => "Inval",
            FormatFault::TooSmall => "TooSmall",
            FormatFault::Device => "Device",
        }
    }
}
