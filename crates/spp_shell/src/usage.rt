//! What the user is shown in place of an answer.
ghost use Rattle.std.specs.Prelude.{◌≡◌};
ghost use Rattle.spp_shell.specs.Devices.{taking_of, Told};
ghost use Rattle.spp_shell.specs.Troubles.{trouble_line};
ghost use Rattle.spp_shell.specs.Usage.{UsageEnds};
ghost use Rattle.spp_shell.specs.declared.trouble.Trouble.TheVariants.{CannotOpen, TooLong};

use crate::place::Place;
use crate::status::GOOD;
use crate::trouble::Trouble;
use crate::writing::{tell, tell_trouble, write_answer};
use spp_report::Sink;
use spp_request::UsageFault;

/// Tells that an input cannot be opened. Gives the exit status.
pub fn refuse_input<E: Sink>(place: Place, err: &mut E) -> u8
    ensures status { result ≡ 3 }
    ensures told { Told (taking_of E.took E.finished E.failures err.old err.new) (trouble_line (CannotOpen place)) }
{
    tell_trouble(err, Trouble::CannotOpen(place))
}

/// Tells that an input is longer than [`INPUT_LIMIT`](crate::INPUT_LIMIT), where that is known before it is read.
/// Gives the exit status.
pub fn refuse_long_input<E: Sink>(place: Place, err: &mut E) -> u8
    ensures status { result ≡ 3 }
    ensures told { Told (taking_of E.took E.finished E.failures err.old err.new) (trouble_line (TooLong place)) }
{
    tell_trouble(err, Trouble::TooLong(place))
}

/// Shows help on `out`, or the text of a usage fault on `err`. Gives the exit status.
pub fn show_usage<O: Sink, E: Sink>(fault: UsageFault, out: &mut O, err: &mut E) -> u8
    ensures ends { UsageEnds (taking_of O.took O.finished O.failures out.old out.new) (taking_of E.took E.finished E.failures err.old err.new) fault result }
{
    match fault {
        UsageFault::Shown { text, status } => {
            if status == GOOD {
                return write_answer(text.as_bytes(), out, err);
            }
            tell(err, text.as_bytes());
            status
        }
        UsageFault::Memory => tell_trouble(err, Trouble::NoMemory),
    }
}
