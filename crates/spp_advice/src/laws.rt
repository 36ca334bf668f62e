//! The laws of the counts and of the weights.

ghost use Rattle.spp_advice.specs.Laws.{SpawnsAreLeft, ChildrenAreLeft, CostsAddUp, ProfilesAreLight};

/// The laws of counts and weights: at a spawn the path goes into the child or past it, as the marks of two positions say, and
/// out of the child by its return edge; what the counts cost is what the path's edges bear; and profiles are light.
/// Its contract is what it is for.
pub fn advice_laws()
    ensures left { SpawnsAreLeft }
    ensures children { ChildrenAreLeft }
    ensures costs { CostsAddUp }
    ensures light { ProfilesAreLight }
{}
