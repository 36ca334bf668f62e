//! What a line of fault says.
ghost use Rattle.std.specs.Prelude.{◌≡◌, ◌≢◌, ◌++◌, ◌<◌, ◌^◌, IfSome, IsSomeAnd, List, None, Some, codes, decimal, ℕ};
ghost use Rattle.spp_event.specs.Texts.{event_fault_text, header_fault_text};
ghost use Rattle.spp_frame.specs.Texts.{fault_text, why_text};
ghost use Rattle.spp_text.specs.FaultTexts.{text_why_text};
ghost use Rattle.spp_explain.specs.Lines.{IsTold, IsToldHeader, IsToldWhy, line_of};

use spp_event::{EventFault, HeaderFault};
use spp_frame::{Fault, Why};
use spp_text::{TextFault, TextWhy};

/// What a line of fault says.
#[derive(Clone, Copy, Debug, PartialEq, Eq)]
pub(crate) enum Told {
    /// What is wrong with a header.
    Header(HeaderFault),
    /// Which event is bad, and what is wrong with it.
    Event(Fault),
    /// Which line of a text is bad, and what is wrong with it.
    Text(TextFault),
    /// A trace lacks the call site that is asked for.
    NoSite,
    /// An input can't be opened.
    CannotOpen,
    /// An input can't be read.
    CannotRead,
    /// An input is too long.
    TooLong,
    /// The output can't be written.
    CannotWrite,
    /// An allocation failed.
    Memory,
}

/// What follows these words, where a text begins with them.
pub(crate) fn behind<'t>(words: &str, text: &'t str) -> Option<&'t str>
    ensures some { IfSome result (λ rest. text.now ≡ words.now ++ rest.now) }
    ensures none { result ≡ None → (rest : List ℕ) → text.now ≢ words.now ++ rest }
{
    text.strip_prefix(words)
}

/// The number that a text is.
fn number(text: &str) -> Option<u32>
    ensures known { (n : ℕ) → n < 2 ^ 32 → text.now ≡ decimal n → result ≡ Some n }
{
    text.parse::<u32>().ok()
}

/// The number at the front of a text, and the words that a colon and a blank part from it.
fn numbered(text: &str) -> Option<(u32, &str)>
    ensures known { (n : ℕ) (rest : List ℕ) → n < 2 ^ 32 → text.now ≡ decimal n ++ codes ": " ++ rest → IsSomeAnd result (λ p. (p.0 ≡ n) × (p.1.now ≡ rest)) }
{
    let (front, back) = text.split_once(':')?;
    Some((number(front)?, behind(" ", back)?))
}

/// The fault of a header that has this text.
fn header_fault(text: &str) -> Option<HeaderFault>
    ensures known { (f : HeaderFault) → IsToldHeader f → text.now ≡ header_fault_text f → result ≡ Some f }
{
    match text {
        "short" => Some(HeaderFault::Short),
        "magic" => Some(HeaderFault::Magic),
        "limits" => Some(HeaderFault::Limits),
        "root function" => Some(HeaderFault::RootFunc),
        "trailing" => Some(HeaderFault::Trailing),
        _ => name_fault(text),
    }
}

/// The fault of a name that has this text.
fn name_fault(text: &str) -> Option<HeaderFault>
    ensures name { (n : ℕ) → n < 2 ^ 32 → text.now ≡ codes "name " ++ decimal n → result ≡ Some (HeaderFault.Name n) }
    ensures same_name { (n : ℕ) → n < 2 ^ 32 → text.now ≡ codes "same name " ++ decimal n → result ≡ Some (HeaderFault.SameName n) }
{
    if let Some(text) = behind("same name ", text) {
        let number = number(text)?;
        return Some(HeaderFault::SameName { number });
    }
    let number = number(behind("name ", text)?)?;
    Some(HeaderFault::Name { number })
}

/// The fault of an event that has this text.
fn event_fault(text: &str) -> Option<EventFault>
    ensures told { IfSome result (λ f. text.now ≡ event_fault_text f) }
    ensures known { (f : EventFault) → text.now ≡ event_fault_text f → result ≡ Some f }
{
    match text {
        "truncated" => Some(EventFault::Truncated),
        "tag" => Some(EventFault::Tag),
        "padding" => Some(EventFault::Padding),
        "operand" => Some(EventFault::Operand),
        "site" => Some(EventFault::Site),
        "function" => Some(EventFault::Func),
        _ => None,
    }
}

/// What is wrong at an event, by its text.
fn why_of(text: &str) -> Option<Why>
    ensures known { (w : Why) → IsToldWhy w → text.now ≡ why_text w → result ≡ Some w }
{
    if text == "root return" {
        return Some(Why::RootReturn);
    }
    if let Some(text) = behind("unclosed ", text) {
        let depth = number(text)?;
        return Some(Why::Unclosed { depth });
    }
    Some(Why::Event(event_fault(text)?))
}

/// What is wrong with a line of a text, by its text.
fn text_why(text: &str) -> Option<TextWhy>
    ensures told { IfSome result (λ f. text.now ≡ text_why_text f) }
    ensures known { (f : TextWhy) → f ≢ TextWhy.Memory → text.now ≡ text_why_text f → result ≡ Some f }
{
    match text {
        "word" => Some(TextWhy::Word),
        "count" => Some(TextWhy::Count),
        "number" => Some(TextWhy::Number),
        "name" => Some(TextWhy::Name),
        "same name" => Some(TextWhy::SameName),
        "limits" => Some(TextWhy::Limits),
        "late" => Some(TextWhy::Late),
        "root" => Some(TextWhy::Root),
        "no function" => Some(TextWhy::NoFunc),
        "site" => Some(TextWhy::Site),
        "function" => Some(TextWhy::Func),
        _ => None,
    }
}

/// The bad event that such words tell.
fn bad_event(text: &str) -> Option<Fault>
    ensures known { (f : Fault) → f.at < 2 ^ 32 → IsToldWhy f.why → text.now ≡ fault_text f → result ≡ Some f }
{
    let (at, text) = numbered(text)?;
    let why = why_of(text)?;
    Some(Fault { at, why })
}

/// The bad line of a text that such words tell.
fn bad_line(text: &str) -> Option<TextFault>
    ensures known { (f : TextFault) → f.line < 2 ^ 32 → f.why ≢ TextWhy.Memory → text.now ≡ decimal f.line ++ codes ": " ++ text_why_text f.why → result ≡ Some f }
{
    let (line, text) = numbered(text)?;
    let why = text_why(text)?;
    Some(TextFault { line, why })
}

/// What a line of fault says that is about the bytes of an input.
fn read_bad(line: &str) -> Option<Told>
    ensures header { (f : HeaderFault) → IsToldHeader f → line.now ≡ line_of (Told.Header f) → result ≡ Some (Told.Header f) }
    ensures event { (f : Fault) → IsTold (Told.Event f) → line.now ≡ line_of (Told.Event f) → result ≡ Some (Told.Event f) }
    ensures text { (f : TextFault) → IsTold (Told.Text f) → line.now ≡ line_of (Told.Text f) → result ≡ Some (Told.Text f) }
{
    if let Some(text) = behind("bad header: ", line) {
        return Some(Told::Header(header_fault(text)?));
    }
    if let Some(text) = behind("bad event ", line) {
        return Some(Told::Event(bad_event(text)?));
    }
    Some(Told::Text(bad_line(behind("bad text line ", line)?)?))
}

/// What a line of fault says, without the words `before: ` and `after: ` and without its line feed: what has this line, if
/// anything has.
pub(crate) fn read_line(line: &str) -> Option<Told>
    ensures known { (t : Told) → IsTold t → line.now ≡ line_of t → result ≡ Some t }
{
    match line {
        "cannot open input" => Some(Told::CannotOpen),
        "cannot read input" => Some(Told::CannotRead),
        "input too long" => Some(Told::TooLong),
        "cannot write output" => Some(Told::CannotWrite),
        "out of memory" => Some(Told::Memory),
        "no such call site" => Some(Told::NoSite),
        _ => read_bad(line),
    }
}
