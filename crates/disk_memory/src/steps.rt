use crate::edits::Edit;
use edge_traits::FileId;
use ring_types::{CutAt, Keep};

/// What was done to a disk in memory, as far as its files and turns tell.
#[derive(Drop)]
pub(crate) enum Step {
    /// A file was edited.
    Edit { file: FileId, edit: Edit },
    /// A file was synced.
    Sync { file: FileId },
    /// The disk crashed.
    Crash { keep: Keep },
    /// A turn ended, which had this setting and so many calls.
    Turn { setting: Option<CutAt>, calls: u64 },
}
