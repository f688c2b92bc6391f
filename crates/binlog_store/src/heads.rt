//! How much of a head stands at the front of a file, and whether an event there ends.
ghost use Rattle.std.specs.Prelude.{◌≡◌, ◌≤◌, length};
ghost use Rattle.binlog_store.specs.Damages as damage;

/// How many bytes at the front of both are equal.
pub(crate) fn agreeing(a: &[u8], b: &[u8]) -> u64
    ensures is { result ≡ damage.agreeing a.now b.now }
    ensures within { result ≤ length a.now }
    ensures short { result ≤ length b.now }
{
    let mut count = 0;
    while count < a.len() && count < b.len() && a[count] == b[count] {
        count += 1;
    }
    count as u64
}

/// Where the first event of a head begins that is not there, if so many bytes of it are.
pub(crate) fn head_event(same: u64) -> u64
    ensures { result ≡ damage.head_event same }
{
    match same {
        ..4 => 0,
        4..126 => 4,
        _ => 126,
    }
}

/// Whether the event at the front of the bytes ends in them by its own size, or says a size that no event
/// has.
pub(crate) fn ends_within(bytes: &[u8]) -> bool
    ensures { result ≡ damage.ends_within bytes.now }
{
    if bytes.len() < 13 {
        return false;
    }
    let size = u32::from_le_bytes([bytes[9], bytes[10], bytes[11], bytes[12]]) as usize;
    size < 23 || size <= bytes.len()
}
