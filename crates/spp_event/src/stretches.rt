//! Bytes of a body that others of it follow: how many events they are, and where the last begins.

ghost use Rattle.std.specs.Prelude.{◌≡◌, ◌<◌, ◌≤◌, length, take, drop};
ghost use Rattle.spp_event.specs.declared.version.Version.TheVariants.{Two};
ghost use Rattle.spp_event.specs.Items.{items};
ghost use Rattle.spp_event.specs.Places.{IsJoint};

use crate::places::count_begun;

/// How many items of version 2 these bytes are. It takes a time linear in them.
pub fn items_in(bytes: &[u8]) -> usize
    ensures { result ≡ length (items bytes.now) }
{
    count_begun(bytes, 0, bytes.len())
}

/// Where the last item of version 2 of these bytes begins, which may go on behind them; 0 where there is one item or none. It takes a time
/// linear in the bytes of that item.
pub fn last_item(bytes: &[u8]) -> usize
    ensures within { result ≤ length bytes.now }
    ensures joint { IsJoint Two (take result bytes.now) (drop result bytes.now) }
    ensures last { length (items (drop result bytes.now)) ≤ 1 }
    ensures some { 0 < length bytes.now → result < length bytes.now }
{
    for k in (0..bytes.len()).rev() {
        if bytes[k] >= 0x80 {
            return k;
        }
    }
    0
}
