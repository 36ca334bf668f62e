//! Lines, words and numbers of a text.

ghost use Rattle.std.specs.Prelude.{not, nat_eq, ◌≡◌, ◌≤◌, ◌^◌, map, length, IfOk, IfSome, MatchOption, true};
ghost use Rattle.std.specs.List.{list_all};
ghost use Rattle.spp_text.specs.Reading.{is_blank, is_digit, value_from, number_in, words};

use smallvec::SmallVec;
use std::alloc::{AllocError, Global};

/// Whether it parts words.
pub(crate) fn is_gap(b: u8) -> bool
    ensures { result ≡ is_blank b }
{
    b == b' ' || b == b'\t'
}

/// Whether it is a word, and not what lies between two blanks.
fn is_word(piece: &[u8]) -> bool
    ensures { result ≡ not (nat_eq (length piece.now) 0) }
{
    !piece.is_empty()
}

/// The words of a line, parted by runs of spaces and tabs.
pub(crate) fn words_of<'t>(
    alloc: Global,
    line: &'t [u8],
) -> Result<SmallVec<&'t [u8], 4>, AllocError>
    ensures { IfOk result (λ ws. map (λ w. w.now) ws.items ≡ words line.now) }
{
    line.split(|b| is_gap(*b))
        .filter(|w| is_word(w))
        .collect(alloc)
}

/// Whether all are digits.
fn are_digits(word: &[u8]) -> bool
    ensures { result ≡ list_all is_digit word.now }
{
    word.iter().all(|b| *b >= b'0' && *b <= b'9')
}

/// The number of these digits, if it has at most 64 bits.
fn value_of(word: &[u8]) -> Option<u64>
    requires { list_all is_digit word.now ≡ true }
    ensures { MatchOption result (2 ^ 64 ≤ value_from 0 word.now) (λ n. n ≡ value_from 0 word.now) }
{
    let mut n: u64 = 0;
    for b in word {
        let digit = u64::from(b.wrapping_sub(b'0'));
        let Some(tens) = n.checked_mul(10) else {
            return None;
        };
        let Some(more) = tens.checked_add(digit) else {
            return None;
        };
        n = more;
    }
    Some(n)
}

/// The number that a word is in decimal, if it is one and at most `most`.
#[tactic(auto, unfolding(crate::specs::Reading::number_in))]
pub(crate) fn number_of(word: &[u8], most: u64) -> Option<u64>
    ensures is { result ≡ number_in most word.now }
    ensures fits { IfSome result (λ n. n ≤ most) }
{
    if word.is_empty() || !are_digits(word) {
        return None;
    }
    let Some(n) = value_of(word) else {
        return None;
    };
    if n <= most { Some(n) } else { None }
}
