//! What may be a name.

ghost use Rattle.std.specs.Prelude.{◌≡◌, ◌↔◌, IsTrue};
ghost use Rattle.std.specs.Str.{bytes_eq};
ghost use Rattle.spp_event.specs.Header.{IsName, root_name};
ghost use Rattle.spp_event.specs.Checks.{is_printable as printable, is_name as good_name};

/// Whether each byte is a printable one of ASCII.
fn is_printable(name: &[u8]) -> bool
    ensures { result ≡ printable name.now }
{
    name.iter().all(|b| (0x20..=0x7e).contains(b))
}

/// Whether it can be the name of a function or of a site: 1 to 200 printable ASCII bytes. It takes no memory, and
/// looks at 200 bytes at most.
pub fn is_name(name: &[u8]) -> bool
    ensures is { IsTrue result ↔ IsName name.now }
    ensures checked { result ≡ good_name name.now }
{
    !name.is_empty() && name.len() <= 200 && is_printable(name)
}

/// Whether it is the name of the root's row, which a function may have and no site: `(root)`.
pub fn is_root_name(name: &[u8]) -> bool
    ensures is { IsTrue result ↔ name.now ≡ root_name }
    ensures checked { result ≡ bytes_eq name.now root_name }
{
    name == b"(root)".as_slice()
}
