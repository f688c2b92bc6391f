ghost use Rattle.event_control.specs.ControlLaws as law;

/// A head that was written is read, whatever stands behind it; and what is read as a head was written so.
pub fn law_head()
    ensures again { law.HeadIsRead }
    ensures takes { law.ReadHeadWasWritten }
{}

/// A ROTATE that was written is read, whatever stands behind it; and what is read as one was written so.
pub fn law_rotation()
    ensures again { law.RotationIsRead }
    ensures takes { law.ReadRotationWasWritten }
{}

/// An opid event that was written is read, whatever stands behind it; and what is read as one was written so.
pub fn law_opid()
    ensures again { law.OpidIsRead }
    ensures takes { law.ReadOpidWasWritten }
{}
