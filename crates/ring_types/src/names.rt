//! What may be a name or an address.
ghost use Rattle.std.specs.Prelude.{◌≡◌};
ghost use Rattle.std.specs.List.{list_all};
ghost use Rattle.ring_types.specs.Names as spec;

use crate::limits::{ADDRESS_BYTES, NAME_BYTES};

fn is_name_byte(byte: u8) -> bool
    ensures { result ≡ spec.is_name_byte byte }
{
    (b'a' <= byte && byte <= b'z')
        || (b'A' <= byte && byte <= b'Z')
        || (b'0' <= byte && byte <= b'9')
        || byte == b'_'
}

fn are_name_bytes(bytes: &[u8]) -> bool
    ensures { result ≡ list_all spec.is_name_byte bytes.now }
{
    bytes.iter().all(|byte| is_name_byte(*byte))
}

/// Whether the bytes may name a region, a database, a table or a column: ASCII letters, digits and
/// underscores, from one to [`NAME_BYTES`].
pub fn is_name(bytes: &[u8]) -> bool
    ensures { result ≡ spec.is_name bytes.now }
{
    1 <= bytes.len() && bytes.len() <= NAME_BYTES && are_name_bytes(bytes)
}

/// Whether the bytes may be an address: from one to [`ADDRESS_BYTES`].
pub fn is_address(bytes: &[u8]) -> bool
    ensures { result ≡ spec.is_address bytes.now }
{
    1 <= bytes.len() && bytes.len() <= ADDRESS_BYTES
}
