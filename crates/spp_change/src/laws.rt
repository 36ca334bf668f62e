//! Laws that changed runs have.

ghost use Rattle.spp_change.specs.Laws.{ChangedByOwner, ChangedIsAsLong, ChangedIsWellFormed, ChangedKeepsFault, CalledKeepsWork, SpawnedKeepsWork};

/// The laws of changed runs: each event is changed as the frame says that directly holds it; one is as long as the run, and well-formed where the run is; else it has the same first bad
/// event; and where spawns are made calls, or calls spawns, it has the same work. Its contract is what it is for.
pub fn change_laws()
    ensures owner { ChangedByOwner }
    ensures long { ChangedIsAsLong }
    ensures formed { ChangedIsWellFormed }
    ensures fault { ChangedKeepsFault }
    ensures called { CalledKeepsWork }
    ensures spawned { SpawnedKeepsWork }
{}
