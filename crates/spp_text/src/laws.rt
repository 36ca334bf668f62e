//! The laws of the text form.

ghost use Rattle.spp_text.specs.Laws.{TextNamesTrace, TextIsItsLines, FaultIsOnItsLine, LineFaultIsTold, EndFaultIsTold};

/// The laws of the text form: the text of a trace, as printing writes it, is read without a fault and names that trace;
/// a text says what its lines say, each by itself; its fault is that of its least line that has one, or of its end; and
/// a line and the end are refused with the fault that they have.
/// Its contract is what it is for.
pub fn text_laws()
    ensures names { TextNamesTrace }
    ensures lists { TextIsItsLines }
    ensures least { FaultIsOnItsLine }
    ensures line { LineFaultIsTold }
    ensures end { EndFaultIsTold }
{}
