//! Digests of what comes out.

/// A digest of these bytes: each eight of them are mixed in at a time.
pub(crate) fn digest(bytes: &[u8]) -> u64 {
    let mut digest = bytes.len() as u64;
    let (words, rest) = bytes.as_chunks::<8>();
    for word in words {
        digest = mixed(digest, u64::from_le_bytes(*word));
    }
    for byte in rest {
        digest = mixed(digest, u64::from(*byte));
    }
    digest
}

/// The digest with one word more.
fn mixed(digest: u64, word: u64) -> u64 {
    (digest ^ word)
        .wrapping_mul(0x9e37_79b9_7f4a_7c15)
        .rotate_left(29)
}
