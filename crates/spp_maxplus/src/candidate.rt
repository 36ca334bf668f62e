//! Candidates: weights with the position of the spawn that they come through.

ghost use Rattle.std.specs.Prelude.{◌≡◌, ◌<◌, ◌^◌, Some};
ghost use Rattle.spp_maxplus.specs.Candidate.{greatest as greatest_of, better as better_of, shifted as shifted_by};

/// The greater of a weight and that of a candidate.
#[inline(always)]
pub(crate) fn greatest(weight: u128, candidate: &Option<(u128, u32)>) -> u128
    ensures { result ≡ greatest_of weight candidate.now }
{
    match candidate {
        None => weight,
        Some((other, _)) => weight.max(*other),
    }
}

/// Puts a candidate with this weight, of a spawn at this position, in the place of one that is less.
#[inline(always)]
pub(crate) fn offer(candidate: &mut Option<(u128, u32)>, weight: u128, at: u32)
    ensures { candidate.new ≡ better_of candidate.old (Some (weight, at)) }
{
    match candidate {
        Some((old, _)) if weight <= *old => {}
        _ => *candidate = Some((weight, at)),
    }
}

/// Of two candidates the greater, and of equal ones the first.
pub(crate) fn better(old: Option<(u128, u32)>, new: Option<(u128, u32)>) -> Option<(u128, u32)>
    ensures { result ≡ better_of old new }
{
    let mut kept = old;
    if let Some((weight, at)) = new {
        offer(&mut kept, weight, at);
    }
    kept
}

/// A candidate whose weight is counted from a weight.
pub(crate) fn shifted(weight: u128, candidate: Option<(u128, u32)>) -> Option<(u128, u32)>
    requires { greatest_of weight (shifted_by weight candidate) < 2 ^ 128 }
    ensures { result ≡ shifted_by weight candidate }
{
    match candidate {
        None => None,
        Some((other, at)) => Some((weight + other, at)),
    }
}
