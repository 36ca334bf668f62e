//! Numbers by which names are told apart quickly.

ghost use Rattle.std.specs.Prelude.{◌≡◌};
ghost use Rattle.spp_event.specs.NameKeys.{name_key};

/// A number for a name, by Fowler, Noll and Vo's hash FNV-1a. Names that differ mostly have different ones; whoever picks
/// names can make many with the same, and nothing rests on it that there are few.
pub(crate) fn key_of(name: &[u8]) -> u64
    ensures { result ≡ name_key name.now }
{
    let mut key: u64 = 0xcbf2_9ce4_8422_2325;
    for k in 0..name.len() {
        key = (key ^ u64::from(name[k])).wrapping_mul(0x100_0000_01b3);
    }
    key
}
