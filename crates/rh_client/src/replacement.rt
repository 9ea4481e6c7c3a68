//! The replacement of channels: at most one is under way at the client.

ghost use Rattle.std.specs.Prelude.{◌≡◌};

/// The replacement that is under way, and what waits behind it. An IN channel is not wanted twice,
/// and an OUT channel waits at most once.
#[derive(Clone, Copy)]
pub enum Replacement {
    /// None, and so none waits.
    NoneUnderWay,
    /// Of the writing IN channel, until IN_R1/A5 is put.
    In { stage: InStage, out_waits: bool },
    /// Of the current OUT channel, until its successor is the current one.
    Out { stage: OutStage, waits: Waits },
}

/// How far the replacement of an IN channel has come.
#[derive(Clone, Copy)]
pub enum InStage {
    /// The successor's leg is wanted, or up; no answer came.
    Asked,
    /// IN_R1/A4 or IN_R2/A4 came: IN_R1/A5 is due.
    Answered,
}

/// How far the replacement of an OUT channel has come.
#[derive(Clone, Copy)]
pub enum OutStage {
    /// OUT_R1/A2 came: the successor's leg is wanted, or up; no answer came.
    Asked,
    /// OUT_R1/A6 came: OUT_R1/A7 is due.
    Answered,
    /// OUT_R1/A7 was put: PDUs come on both channels.
    Switched,
    /// OUT_R1/A10 came: nothing more comes on the predecessor, and PDUs of it are held.
    Finished,
}

/// The replacements that wait behind that of an OUT channel, in the order in which they were
/// wanted.
#[derive(Clone, Copy)]
pub enum Waits {
    Nothing,
    In,
    Out,
    InThenOut,
    OutThenIn,
}

impl Replacement {
    ghost use Rattle.rh_client.specs.Replacements.{is_none, is_in, is_out, is_finished};

    /// Whether none is under way.
    pub(crate) fn is_none(&self) -> bool
        ensures { result ≡ is_none self.now }
    {
        matches!(self, Replacement::NoneUnderWay)
    }

    /// Whether that of an IN channel is.
    pub(crate) fn is_in(&self) -> bool
        ensures { result ≡ is_in self.now }
    {
        matches!(self, Replacement::In { .. })
    }

    /// Whether that of an OUT channel is.
    pub(crate) fn is_out(&self) -> bool
        ensures { result ≡ is_out self.now }
    {
        matches!(self, Replacement::Out { .. })
    }

    /// Whether OUT_R1/A10 came, and the predecessor is still the current channel.
    pub(crate) fn is_finished(&self) -> bool
        ensures { result ≡ is_finished self.now }
    {
        matches!(
            self,
            Replacement::Out {
                stage: OutStage::Finished,
                ..
            }
        )
    }
}

impl OutStage {
    ghost use Rattle.rh_client.specs.Replacements.{is_switched_stage};

    /// Whether OUT_R1/A7 was put.
    pub(crate) fn is_switched(&self) -> bool
        ensures { result ≡ is_switched_stage self.now }
    {
        matches!(self, OutStage::Switched | OutStage::Finished)
    }
}

impl Waits {
    ghost use Rattle.std.specs.Prelude.{◌≡◌};
    ghost use Rattle.rh_client.specs.Replacements.{has_out, with_in, with_out};

    /// Whether that of an OUT channel waits.
    pub(crate) fn has_out(&self) -> bool
        ensures { result ≡ has_out self.now }
    {
        matches!(self, Waits::Out | Waits::InThenOut | Waits::OutThenIn)
    }

    /// What waits once that of an IN channel is wanted too.
    pub(crate) fn with_in(self) -> Waits
        ensures { result ≡ with_in self }
    {
        match self {
            Waits::Nothing => Waits::In,
            Waits::Out => Waits::OutThenIn,
            Waits::In | Waits::InThenOut | Waits::OutThenIn => self,
        }
    }

    /// What waits once that of an OUT channel is wanted too.
    pub(crate) fn with_out(self) -> Waits
        ensures { result ≡ with_out self }
    {
        match self {
            Waits::Nothing => Waits::Out,
            Waits::In => Waits::InThenOut,
            Waits::Out | Waits::InThenOut | Waits::OutThenIn => self,
        }
    }
}
