//! Writing an answer, or one line of fault.
ghost use Rattle.std.specs.Prelude.{◌≡◌};
ghost use Rattle.spp_shell.specs.Devices.{taking_of, Told};
ghost use Rattle.spp_shell.specs.Endings.{WritingEnds};
ghost use Rattle.spp_shell.specs.Troubles.{trouble_line, trouble_status};

use crate::status::GOOD;
use crate::trouble::Trouble;
use spp_report::{Sink, WriteFault, write_out};

/// Writes one line; whether the device took it is not told on.
pub(crate) fn tell<E: Sink>(err: &mut E, line: &[u8])
    ensures { Told (taking_of E.took E.finished E.failures err.old err.new) line.now }
{
    match write_out(err, line) {
        Ok(()) => {}
        Err(WriteFault::Device { written: _ }) => {}
    }
}

/// Tells in its line what keeps the run from its answer. Gives the exit status.
pub(crate) fn tell_trouble<E: Sink>(err: &mut E, trouble: Trouble) -> u8
    ensures told { Told (taking_of E.took E.finished E.failures err.old err.new) (trouble_line trouble) }
    ensures status { result ≡ trouble_status trouble }
{
    tell(err, trouble.line());
    trouble.status()
}

/// Writes a whole text to `out`, or tells `err` that this failed, after which nothing is written. Gives the exit status.
pub(crate) fn write_answer<O: Sink, E: Sink>(text: &[u8], out: &mut O, err: &mut E) -> u8
    ensures { WritingEnds (taking_of O.took O.finished O.failures out.old out.new) (taking_of E.took E.finished E.failures err.old err.new) text.now result }
{
    match write_out(out, text) {
        Ok(()) => GOOD,
        Err(WriteFault::Device { written: _ }) => tell_trouble(err, Trouble::CannotWrite),
    }
}
