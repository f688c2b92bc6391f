/// Why a rule of the step gave no plan.
#[derive(Clone, Copy, Debug, PartialEq, Eq)]
pub enum CoreFault {
    /// The view of the log failed.
    Disk,
    /// A committed entry has another term than the message says of its position.
    Torn {
        position: u64,
        kept_term: u64,
        sent_term: u64,
    },
    Memory,
}
