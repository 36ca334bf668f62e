//! Writing a whole text to a sink.
ghost use Rattle.std.specs.Prelude.{◌≡◌, OnOk, IfErr};
ghost use Rattle.spp_report.specs.Sinks.{StoppedAt};

use crate::sink::{Sink, WriteFault};

/// Writes the whole text, once, and finishes the sink. It takes no memory.
///
/// # Errors
///
/// Exactly the first `written` bytes went out without a failure; then the sink failed, so that its count of failures rose
/// or stands at its greatest value, and no byte was written after that. Where all went out and only the finishing
/// failed, `written` is the length of the text.
pub fn write_out<S: Sink>(sink: &mut S, text: &[u8]) -> Result<(), WriteFault>
    ensures all { OnOk result (S.took sink.old text.now sink.new) }
    ensures finished { OnOk result (S.finished sink.new) }
    ensures same { OnOk result (S.failures sink.new ≡ S.failures sink.old) }
    ensures stopped { IfErr result (λ fault. StoppedAt S.took S.failures sink.old text.now fault sink.new) }
{
    let mut written = 0;
    while written < text.len() {
        match sink.push(&text[written..]) {
            Ok(n) => written += n,
            Err(_) => return Err(WriteFault::Device { written }),
        }
    }
    match sink.finish() {
        Ok(()) => Ok(()),
        Err(_) => Err(WriteFault::Device { written }),
    }
}
