use crate::mounted::Mounted;
use il_host::{Job, Performer};
use std::alloc::Global;
use tape_volumes::{VolumeJob, Went};

/// A job on an image, which a host does.
#[derive(Drop)]
pub struct Hosted<J: Drop> {
    pub(crate) job: J,
    /// How it went.
    pub(crate) went: Went,
}

impl<J: VolumeJob + Drop> Job for Hosted<J> {
    ghost use Rattle.std.specs.Prelude.{◌≡◌, []};
    ghost use Rattle.tape.specs.Mounts.{mounted_in};

    ghost asks = { λ hosted plan. J.asks hosted.job × (plan ≡ []) };

    // The job before.
    ghost told = { J };

    ghost does = { λ old new told plan s t.
        (told ≡ old.job) × J.does old.job new.job new.went (mounted_in s) (mounted_in t) };

    ghost leaves = { λ told s t x. J.leaves told (mounted_in s) x };

    fn work<P: Performer + Drop>(&mut self, alloc: Global, host: P) -> P {
        let mut mounted = Mounted { host };
        self.went = self.job.work(alloc, &mut mounted);
        let Mounted { host } = mounted;
        host
    }
}
