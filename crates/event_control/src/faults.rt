ghost use Rattle.std.specs.Prelude.{◌≡◌};
ghost use Rattle.event_control.specs.declared.faults.ControlError.TheVariants.{Frame, Body};

use event_frame::{FieldFault, FrameError};

/// Why the event that is due does not stand there, in the order in which it is tested.
#[derive(Clone, Copy, Debug, PartialEq, Eq, thiserror::Error)]
pub enum ControlError {
    /// No event stands there.
    #[error("{0}")]
    Frame(FrameError),
    /// Another type of event or other flags.
    #[error("another type of event is due")]
    Kind,
    /// A body that no event of the type has. Of a file's head also: the magic is missing.
    #[error("the body is not one of its type")]
    Body,
}

impl From<FrameError> for ControlError {
    ghost from_gives = { λ fault e. e ≡ Frame fault };

    fn from(fault: FrameError) -> ControlError {
        ControlError::Frame(fault)
    }
}

impl From<FieldFault> for ControlError {
    ghost from_gives = { λ _ e. e ≡ Body };

    fn from(_fault: FieldFault) -> ControlError {
        ControlError::Body
    }
}
