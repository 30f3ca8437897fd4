ghost use Rattle.std.specs.Prelude.{◌≡◌, ◌≤◌, None, Some, IfSome, IsSome, option_map};
ghost use Rattle.il_device.specs.declared.interface.OwnFrame.{OwnFrame};
ghost use Rattle.il_ring.specs.Guests.{IsUnderHost};
ghost use Rattle.il_ring.specs.Outcomes.{AllKeep, IsTalking, StoodSo, Relayed};
ghost use Rattle.il_ring.specs.Rings.{IsRing, Round, devices_of, spare_of};
ghost use Rattle.il_ring.specs.Rounded.{Rounded, IsReady};

use crate::flight::Standing;
use crate::plan::Arrival;
use crate::ring::{Came, Ring, Seen};
use il_frames::Frame;
use il_ports::Medium;

/// A borrowed ring whose held frame goes on again and again. Meanwhile the frame is kept here, where the caller's loop
/// can have it in registers, and not in the ring's memory, where each round would write it for the next to read. `hold`
/// gives it back.
pub struct Running<'r, M: Medium> {
    ring: &'r mut Ring<M>,
    standing: Standing,
}

impl<'r, M: Medium> Seen<M> for Running<'r, M> {
    ghost use Rattle.il_ring.specs.Seen.{ring_seen};
    ghost use Rattle.il_ring.specs.Rings.{with_held};

    ghost seen = { λ r. with_held (ring_seen (λ b. (Device-box b).state b.value) r.ring.now) r.standing };
}

impl<'r, M: Medium> Running<'r, M> {
    /// Borrows the ring, and takes its held frame.
    #[inline(always)]
    pub fn new(ring: &'r mut Ring<M>) -> Running<'r, M>
        ensures same_reference { result.ring.ghost_name ≡ ring.entry.ghost_name }
        ensures same { ⟦<Running<'r, M> as Seen<M>>⟧.seen result ≡ ⟦<Ring<M> as Seen<M>>⟧.seen ring.old }
    {
        let standing = ring.parts.books.hand_out();
        Running { ring, standing }
    }

    /// The data or end frame of a device that is held at the host, as it came. `None` if none is.
    #[inline(always)]
    pub fn held(&self) -> Option<Frame>
        ensures { result ≡ option_map (λ f. f.now) (⟦<Running<'r, M> as Seen<M>>⟧.seen self.now).books.held }
    {
        self.standing.flight().map(|flight| flight.now)
    }

    /// The held frame goes on, as by the ring's `relay`.
    #[inline(always)]
    pub fn relay(&mut self) -> Arrival
        requires held { IsSome (⟦<Running<'r, M> as Seen<M>>⟧.seen self.old).books.held }
        requires room { 32 ≤ spare_of (⟦<Running<'r, M> as Seen<M>>⟧.seen self.old) }
        ensures same_reference { self.new.ring.ghost_name ≡ self.old.ring.ghost_name }
        ensures round { IsUnderHost (⟦<Running<'r, M> as Seen<M>>⟧.seen self.old).guest →
            IfSome (⟦<Running<'r, M> as Seen<M>>⟧.seen self.old).books.held (λ f. Round M.view (⟦<Running<'r, M> as Seen<M>>⟧.seen self.old) None f result (⟦<Running<'r, M> as Seen<M>>⟧.seen self.new)) }
        ensures relayed { IsUnderHost (⟦<Running<'r, M> as Seen<M>>⟧.seen self.old).guest →
            IsRing (⟦<Running<'r, M> as Seen<M>>⟧.seen self.old) → IfSome (⟦<Running<'r, M> as Seen<M>>⟧.seen self.old).books.held
            (λ f. (own : OwnFrame) → IsTalking f.source (Some own) (devices_of (⟦<Running<'r, M> as Seen<M>>⟧.seen self.old)) → own.frame ≡ f.sent → StoodSo f
            → Relayed (⟦<Running<'r, M> as Seen<M>>⟧.seen self.old) f own result (⟦<Running<'r, M> as Seen<M>>⟧.seen self.new)) }
        ensures counts { IsUnderHost (⟦<Running<'r, M> as Seen<M>>⟧.seen self.old).guest →
            IfSome (⟦<Running<'r, M> as Seen<M>>⟧.seen self.old).books.held (λ f. IsReady f (devices_of (⟦<Running<'r, M> as Seen<M>>⟧.seen self.old))
            → Rounded (⟦<Running<'r, M> as Seen<M>>⟧.seen self.old) None f result (⟦<Running<'r, M> as Seen<M>>⟧.seen self.new)) }
        ensures kept { IsUnderHost (⟦<Running<'r, M> as Seen<M>>⟧.seen self.old).guest →
            AllKeep (devices_of (⟦<Running<'r, M> as Seen<M>>⟧.seen self.old)) (devices_of (⟦<Running<'r, M> as Seen<M>>⟧.seen self.new)) }
    {
        let flight = self.standing.flight().unwrap();
        let Came { arrival, standing } = self.ring.round_on(flight);
        self.standing = standing;
        arrival
    }

    /// Gives the held frame back to the ring.
    #[inline(always)]
    pub fn hold(self)
        ensures { ⟦<Ring<M> as Seen<M>>⟧.seen self.exit.0.now ≡ ⟦<Running<'r, M> as Seen<M>>⟧.seen self.entry }
    {
        let Running { ring, standing } = self;
        ring.parts.books.stand(standing);
    }
}
