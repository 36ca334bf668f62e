//! What keeps a run from its answer, whatever its input says.
ghost use Rattle.std.specs.Prelude.{◌≡◌};
ghost use Rattle.spp_shell.specs.Troubles.{trouble_line, trouble_status};

use crate::place::Place;
use crate::status::{DEVICE, MEMORY};

/// What keeps a run from its answer, whatever its input says.
#[derive(Clone, Copy, Debug, PartialEq, Eq)]
pub(crate) enum Trouble {
    /// The input can't be opened.
    CannotOpen(Place),
    /// The device of the input failed before its end.
    CannotRead(Place),
    /// The input has more bytes, or takes more reads, than are allowed.
    TooLong(Place),
    /// The output didn't take the whole answer, or failed to send it on.
    CannotWrite,
    /// An allocation failed.
    NoMemory,
}

impl Trouble {
    /// The line that tells it, with its line feed.
    pub(crate) fn line(self) -> &'static [u8]
        ensures { result.now ≡ trouble_line self }
    {
        match self {
            Trouble::CannotOpen(Place::Only) => b"cannot open input\n".as_slice(),
            Trouble::CannotOpen(Place::Before) => b"before: cannot open input\n".as_slice(),
            Trouble::CannotOpen(Place::After) => b"after: cannot open input\n".as_slice(),
            Trouble::CannotRead(Place::Only) => b"cannot read input\n".as_slice(),
            Trouble::CannotRead(Place::Before) => b"before: cannot read input\n".as_slice(),
            Trouble::CannotRead(Place::After) => b"after: cannot read input\n".as_slice(),
            Trouble::TooLong(Place::Only) => b"input too long\n".as_slice(),
            Trouble::TooLong(Place::Before) => b"before: input too long\n".as_slice(),
            Trouble::TooLong(Place::After) => b"after: input too long\n".as_slice(),
            Trouble::CannotWrite => b"cannot write output\n".as_slice(),
            Trouble::NoMemory => b"out of memory\n".as_slice(),
        }
    }

    /// The exit status that goes with it.
    pub(crate) fn status(self) -> u8
        ensures { result ≡ trouble_status self }
    {
        match self {
            Trouble::CannotOpen(_)
            | Trouble::CannotRead(_)
            | Trouble::TooLong(_)
            | Trouble::CannotWrite => DEVICE,
            Trouble::NoMemory => MEMORY,
        }
    }
}
