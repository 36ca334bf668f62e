//! What a part of a run comes to, read once where it isn't known which frames are open before it, and the profile of a run so
//! far, onto which parts are joined.
#![tactic(auto)]

mod part_profile;
mod records;
mod so_far;
mod stretch;

pub use part_profile::PartProfile;
pub use so_far::ProfileSoFar;
