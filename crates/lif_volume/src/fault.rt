use il_ports::Trouble;
use lif_plan::Refusal;

/// Why a command of a volume did not do what it was asked.
#[derive(Clone, Copy, Debug, PartialEq, Eq)]
pub enum VolumeFault {
    /// The command is refused.
    Refused(Refusal),
    /// A call of the store failed.
    Trouble(Trouble),
}

impl From<Trouble> for VolumeFault {
    ghost use Rattle.std.specs.Prelude.{◌≡◌};
    ghost use Rattle.lif_volume.specs.Answers.{troubled};

    ghost from_gives = { λ trouble fault. fault ≡ troubled trouble };

    fn from(trouble: Trouble) -> VolumeFault {
        VolumeFault::Trouble(trouble)
    }
}

impl From<Refusal> for VolumeFault {
    ghost use Rattle.std.specs.Prelude.{◌≡◌};
    ghost use Rattle.lif_volume.specs.Answers.{refused};

    ghost from_gives = { λ refusal fault. fault ≡ refused refusal };

    fn from(refusal: Refusal) -> VolumeFault {
        VolumeFault::Refused(refusal)
    }
}
