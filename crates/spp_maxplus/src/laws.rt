//! Laws that the definitions of this crate have.

ghost use Rattle.std.specs.Prelude.{◌≡◌};
ghost use Rattle.spp_maxplus.specs.declared.state.State.{State as AState};
ghost use Rattle.spp_maxplus.specs.declared.seg.Seg.{Seg as ASeg};
ghost use Rattle.spp_maxplus.specs.Seg.{act, idle as idle_seg, then as then_seg};

/// The laws of lists, one after the other: it makes no difference which two are put together first, and the empty list
/// changes nothing; both together do what the one does and then the other; and lists that do the same to every state
/// have the same values. Its contract is what it is for.
pub fn seg_laws()
    ensures assoc { (a b c : ASeg) → then_seg (then_seg a b) c ≡ then_seg a (then_seg b c) }
    ensures idle_after { (a : ASeg) → then_seg a idle_seg ≡ a }
    ensures idle_before { (a : ASeg) → then_seg idle_seg a ≡ a }
    ensures acts { (a b : ASeg) (s : AState) → act (then_seg a b) s ≡ act b (act a s) }
    ensures exact { (a b : ASeg) → ((s : AState) → act a s ≡ act b s) → a ≡ b }
{}
