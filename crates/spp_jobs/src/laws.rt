//! The law of names.

ghost use Rattle.std.specs.Prelude.{◌≡◌};
ghost use Rattle.spp_cut.specs.Parts.{IsCut};
ghost use Rattle.spp_jobs.specs.Names.{JobOf, spell};

/// No two jobs have one name. So what is said of a name is said of one kind of job, of one recording, of one way to cut
/// it and of one pair of burdens. Its contract is what it is for.
pub fn name_laws()
    ensures { (a b : JobOf) → IsCut a.cut → IsCut b.cut → spell a ≡ spell b → a ≡ b }
{}
