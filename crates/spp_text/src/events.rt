//! The event that the words of a line spell.

ghost use Rattle.std.specs.Prelude.{◌≡◌, ℕ, map, IfOk, IfSome};
ghost use Rattle.spp_event.specs.declared.records.Event.{Event as AnEvent};
ghost use Rattle.spp_event.specs.declared.records.Event.TheVariants.{Call, Spawn};
ghost use Rattle.spp_event.specs.Records.{IsEvent};
ghost use Rattle.spp_text.specs.Reading.{number_in, strand_words, open_words, lone_words, event_in};
ghost use Rattle.spp_text.specs.Steps.{spelled};

use crate::fault::TextWhy;
use crate::words::number_of;
use spp_event::Event;

/// A number of 32 bits.
pub(crate) fn short_number(word: &[u8]) -> Option<u32>
    ensures { result ≡ number_in 4294967295 word.now }
{
    match number_of(word, u64::from(u32::MAX)) {
        Some(n) => Some(n as u32),
        None => None,
    }
}

/// The strand whose count the words are.
fn strand_of(words: &[&[u8]]) -> Result<Event, TextWhy>
    ensures is { result ≡ strand_words (map (λ w. w.now) words.now) }
    ensures fits { IfOk result (λ e. IsEvent e) }
{
    let [word] = words else {
        return Err(TextWhy::Count);
    };
    match number_of(word, u64::MAX) {
        Some(count) => Ok(Event::Strand { count }),
        None => Err(TextWhy::Number),
    }
}

/// The site and the function that the words are.
fn site_and_func(words: &[&[u8]]) -> Result<(u32, u32), TextWhy>
    ensures { (event : ℕ → ℕ → AnEvent) → open_words event (map (λ w. w.now) words.now) ≡ spelled event result }
{
    let [site, func] = words else {
        return Err(TextWhy::Count);
    };
    let Some(site) = short_number(site) else {
        return Err(TextWhy::Number);
    };
    let Some(func) = short_number(func) else {
        return Err(TextWhy::Number);
    };
    Ok((site, func))
}

/// The event that has no other words.
fn lone(event: Event, words: &[&[u8]]) -> Result<Event, TextWhy>
    requires { IsEvent event }
    ensures is { result ≡ lone_words event (map (λ w. w.now) words.now) }
    ensures fits { IfOk result (λ e. IsEvent e) }
{
    if words.is_empty() {
        Ok(event)
    } else {
        Err(TextWhy::Count)
    }
}

/// The event of a call.
fn call_of(words: &[&[u8]]) -> Result<Event, TextWhy>
    ensures is { result ≡ open_words Call (map (λ w. w.now) words.now) }
    ensures fits { IfOk result (λ e. IsEvent e) }
{
    let (site, func) = site_and_func(words)?;
    Ok(Event::Call { site, func })
}

/// The event of a spawn.
fn spawn_of(words: &[&[u8]]) -> Result<Event, TextWhy>
    ensures is { result ≡ open_words Spawn (map (λ w. w.now) words.now) }
    ensures fits { IfOk result (λ e. IsEvent e) }
{
    let (site, func) = site_and_func(words)?;
    Ok(Event::Spawn { site, func })
}

/// The event that a line's first word and the others spell, or what is wrong with the others; none where no event has
/// that first word.
#[tactic(auto, unfolding(crate::specs::Reading::event_in))]
pub(crate) fn event_of(word: &[u8], words: &[&[u8]]) -> Option<Result<Event, TextWhy>>
    ensures is { result ≡ event_in word.now (map (λ w. w.now) words.now) }
    ensures fits { IfSome result (λ read. IfOk read (λ e. IsEvent e)) }
{
    if word == b"strand".as_slice() {
        Some(strand_of(words))
    } else if word == b"call".as_slice() {
        Some(call_of(words))
    } else if word == b"spawn".as_slice() {
        Some(spawn_of(words))
    } else if word == b"return".as_slice() {
        Some(lone(Event::Ret, words))
    } else if word == b"sync".as_slice() {
        Some(lone(Event::Sync, words))
    } else {
        None
    }
}
