//! The laws of pieces.

ghost use Rattle.std.specs.Prelude.{◌≡◌, ◌+◌, ℕ, List, ◌++◌, length, Result, Ok};
ghost use Rattle.spp_event.specs.declared.records.Event.{Event as EventValue};
ghost use Rattle.spp_event.specs.declared.records.EventFault.{EventFault as FaultValue};
ghost use Rattle.spp_maxplus.specs.declared.state.Burdens.{Burdens as BurdensValue};
ghost use Rattle.spp_piece.specs.Account.{account_of, together};
ghost use Rattle.spp_piece.specs.Action.{action};
ghost use Rattle.spp_piece.specs.Stack.{Stack};
ghost use Rattle.spp_piece.specs.Summary.{Sum, summary_of, joined};

/// The laws of joins: what is joined is the summary of both lists together; it acts as the one and then the other; and
/// it makes no difference which two of three are joined first. Its contract is what it is for.
pub fn piece_laws()
    ensures account { (burdens : BurdensValue) (first : ℕ) (xs ys : List (Result EventValue FaultValue)) → together (account_of burdens first xs) (account_of burdens (first + length xs) ys) ≡ account_of burdens first (xs ++ ys) }
    ensures joined { (burdens : BurdensValue) (first : ℕ) (xs ys : List (Result EventValue FaultValue)) → joined burdens (summary_of burdens first xs) (summary_of burdens (first + length xs) ys) ≡ summary_of burdens first (xs ++ ys) }
    ensures acts { (burdens : BurdensValue) (left right : Sum) (stack : Stack) → action burdens (joined burdens left right) (Ok stack) ≡ action burdens right (action burdens left (Ok stack)) }
    ensures assoc { (burdens : BurdensValue) (a b c : Sum) → joined burdens (joined burdens a b) c ≡ joined burdens a (joined burdens b c) }
{}
