ghost use Rattle.entry_group.specs.Laws.{FilesHaveTheirSizes, GroupHasItsSize, GroupIsRead, NoGroupBeginsAnother, OneLogHasThem, ReadGroupWasWritten};

/// What [`write_entry`](crate::write_entry) put is what [`read_entry`](crate::read_entry) gives, with
/// the size of the group, whatever stands behind it.
pub fn law_group_again()
    ensures { GroupIsRead }
{}

/// Bytes in which an entry is read begin with its group, which may stand there.
pub fn law_group_takes()
    ensures { ReadGroupWasWritten }
{}

/// No group begins another at the same place: equal bytes are those of one entry, and the same bytes
/// stand behind.
pub fn law_group_front()
    ensures { NoGroupBeginsAnother }
{}

/// A group has the bytes that [`group_size`](crate::group_size) tells.
pub fn law_group_length()
    ensures { GroupHasItsSize }
{}

/// Two logs with equal files are equal.
pub fn law_files()
    ensures { OneLogHasThem }
{}

/// The files of a log have the sizes that [`file_sizes`](crate::file_sizes) tells.
pub fn law_file_sizes()
    ensures { FilesHaveTheirSizes }
{}
