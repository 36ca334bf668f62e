//! How a trace spells its events.

ghost use Rattle.std.specs.Prelude.{◌≡◌};
ghost use Rattle.spp_event.specs.Header.{magic};
ghost use Rattle.spp_event.specs.Recordings.{version_number};

/// How a trace spells its events.
#[derive(Clone, Copy, Debug, PartialEq, Eq)]
pub enum Version {
    /// As records of 16 bytes.
    One,
    /// As items, those of good events of one to twelve bytes.
    Two,
}

impl Version {
    /// The first eight bytes of a trace of this version.
    pub(crate) fn magic(self) -> &'static [u8]
        ensures { result.now ≡ magic self }
    {
        match self {
            Version::One => b"SPTRACE1".as_slice(),
            Version::Two => b"SPTRACE2".as_slice(),
        }
    }

    /// 1 or 2.
    pub fn number(self) -> u8
        ensures { result ≡ version_number self }
    {
        match self {
            Version::One => 1,
            Version::Two => 2,
        }
    }
}
