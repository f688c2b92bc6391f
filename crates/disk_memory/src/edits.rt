use ring_types::List;

/// A change of one file's bytes.
#[derive(Drop)]
pub(crate) enum Edit {
    /// The bytes stand from `at` on.
    Write { at: u64, bytes: List<u8> },
    /// The file has no more than `length` bytes.
    Cut { length: u64 },
}
