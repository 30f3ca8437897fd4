use crate::volumes::Volumes;
use crate::went::Went;
use std::alloc::Global;

/// A job on the image that is in a drive.
pub trait VolumeJob {
    ghost use Rattle.std.specs.Prelude.{◌≡◌};
    ghost use Rattle.lif_model.specs.Tape.{Tape};
    ghost use Rattle.tape_volumes.specs.Volumes.{Mounted, StaysBeside};
    ghost use Rattle.tape_volumes.specs.declared.went.Went.{Went};

    // What it needs.
    ghost asks: { Self → Type 0 };

    // What it did if it went so, from the job before to the job after, between two tapes in the drive.
    ghost does: { Self → Self → Went → Mounted → Mounted → Type 0 };

    // What a power stop within it may leave.
    ghost leaves: { Self → Mounted → Tape → Type 0 };

    /// Does the job.
    fn work<V: Volumes>(&mut self, alloc: Global, volumes: &mut V) -> Went
        requires valid { (V.seen volumes.old).valid }
        requires asks { asks self.old }
        ensures valid { (V.seen volumes.new).valid }
        ensures size { (V.seen volumes.new).mounted.records ≡ (V.seen volumes.old).mounted.records }
        ensures does { does self.old self.new result (V.seen volumes.old).mounted (V.seen volumes.new).mounted }
        ensures beside { StaysBeside (leaves self.old (V.seen volumes.old).mounted)
            (V.seen volumes.old) (V.seen volumes.new) };
}
