use thiserror::Error;

/// Why no set was read.
#[derive(Clone, Copy, Debug, PartialEq, Eq, Error)]
pub enum SetError {
    /// No canonical set has these bytes.
    #[error("these are not the bytes of a GTID set")]
    NotASet,
    /// No canonical set has this text.
    #[error("this is not the text of a GTID set")]
    NotText,
    /// Memory was wanting.
    #[error("out of memory")]
    Memory,
}
