ghost use Rattle.std.specs.Prelude.{◌≡◌, ◌↔◌, IsTrue};
ghost use Rattle.il_ring.specs.Plans.{is_fault, IsPlan};

use il_frames::Frame;

/// A fault that is planned at one crossing of a link. Crossings are counted from 1 over the life of
/// a ring. The default is no planned fault, since there is no crossing 0: it fills the unused places of a list.
#[derive(Clone, Copy, Default, PartialEq, Eq, Debug)]
pub struct Planned {
    /// The number of the crossing, at least 1.
    pub hop: u64,
    /// What happens there.
    pub fault: PlanFault,
}

/// What happens to a frame at a crossing.
#[derive(Clone, Copy, Default, PartialEq, Eq, Debug)]
pub enum PlanFault {
    /// It is lost.
    #[default]
    Lose,
    /// The byte of a data or end frame becomes another, by exclusive or with this one, which is not
    /// 0. A frame that was altered before on its trip from its source back to its source is lost,
    /// and so is every command, ready and identify frame.
    Alter(u8),
}

/// What arrives at the host.
#[derive(Clone, Copy, PartialEq, Eq, Debug)]
pub enum Arrival {
    /// This frame.
    Frame(Frame),
    /// Nothing: a planned fault lost the frame that was on its way.
    Lost,
}

impl PlanFault {
    /// Whether it is a loss or an alteration that makes another byte.
    fn is_fault(self) -> bool
        ensures { result ≡ is_fault self }
    {
        match self {
            PlanFault::Lose => true,
            PlanFault::Alter(change) => change != 0,
        }
    }
}

/// Whether a ring can follow the plan: the crossings are at least 1 and rise strictly, and no
/// alteration has the byte 0.
pub fn is_plan(plan: &[Planned]) -> bool
    ensures { IsTrue result ↔ IsPlan plan.now }
{
    let mut crossing = 0;
    for planned in plan {
        if planned.hop <= crossing || !planned.fault.is_fault() {
            return false;
        }
        crossing = planned.hop;
    }
    true
}
