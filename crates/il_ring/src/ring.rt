ghost use Rattle.std.specs.Prelude.{◌≡◌, ◌⊎◌, ◌+◌, ◌<◌, ◌≤◌, ◌++◌, [], map, length, true, false, Some, None, IsSome, Option, IfSome, IfOk, IfErr, option_map, is_some};
ghost use Rattle.il_frames.specs.Frames.{is_data};
ghost use Rattle.il_frames.specs.Messages.{message_of};
ghost use Rattle.il_device.specs.declared.interface.OwnFrame.{OwnFrame};
ghost use Rattle.il_device.specs.Roles.{is_start};
ghost use Rattle.il_device.specs.Passing.{is_plain};
ghost use Rattle.il_frames.specs.NamedFrames.{ifc, nrd};
ghost use Rattle.loop_model.specs.Roles.{talkers, is_at_most_one};
ghost use Rattle.il_drive.specs.State.{fresh_drive, IsDrive};
ghost use Rattle.il_ring.specs.declared.plan.Arrival.TheVariants as arrival;
ghost use Rattle.il_ring.specs.Plans.{IsPlan};
ghost use Rattle.il_ring.specs.Books.{IsClear};
ghost use Rattle.il_ring.specs.Flights.{sourced};
ghost use Rattle.il_ring.specs.Rings.{RingView, IsRing, Round, devices_of, roles_of, drive_party, spare_of, fresh_books, ring_emptied, with_held, paper_of};
ghost use Rattle.il_ring.specs.Guests.{guest_devices, guest_mind, MayBeGuest, StandsLast, IsUnderHost};
ghost use Rattle.il_ring.specs.Lending.{HostKeeps, IsControlled, ControlledRound, StandsNow, TakesBack};
ghost use Rattle.il_ring.specs.Lending.{going_on, hands_over, leads, about_to_send};
ghost use Rattle.il_guest.specs.Frames.{tct};
ghost use Rattle.il_ring.specs.HandedOver.{HandLost, HandedOver};
ghost use Rattle.il_ring.specs.ControlledAdds.{IsUnderWay, ControlledAdds};
ghost use Rattle.il_ring.specs.Lists.{AllSilent, NoneSends};
ghost use Rattle.il_ring.specs.declared.flight.Flight.{Flight};
ghost use Rattle.il_ring.specs.Turned.{HalvesOfRound, turned_flight};
ghost use Rattle.il_ring.specs.Rounded.{Rounded, IsReady};
ghost use Rattle.il_ring.specs.Outcomes.{Returned, WasLost, DataReturned, DataBroken, StartReturned, StartGone, StartTaken, AllKeep, IsTalking, StoodSo, Relayed};

use crate::books::Books;
use crate::flight::{Flight, Standing};
use crate::last::Last;
use crate::paper::paper_in;
use crate::plan::{Arrival, Planned};
use crate::rig::{Refused, Rig};
use crate::walk::{pass_drive, pass_drive_clear, walk_past, walk_past_clear};
use il_device::Device;
use il_drive::Drive;
use il_frames::{Entry, Frame};
use il_guest::Guest;
use il_ports::Medium;
use std::alloc::Global;

/// What contracts see of a ring, and of whatever owns one.
pub trait Seen<M> {
    ghost seen: { Self → RingView M };
}

/// The devices beside the drive.
#[derive(Drop)]
pub(crate) struct Boxes {
    pub before: Vec<Box<dyn Device>>,
    pub after: Vec<Box<dyn Device>>,
    pub last: Last,
    ghost few: { length before.items + length after.items + length (guest_devices last) ≤ 29 },
}

/// What arrived at the host, and the frame that is held there then.
pub(crate) struct Came {
    pub arrival: Arrival,
    pub standing: Standing,
}

/// What a ring consists of.
#[derive(Drop)]
pub(crate) struct Parts<M: Medium> {
    pub boxes: Boxes,
    pub drive: Drive<M>,
    pub books: Books,
}

impl<M: Medium> Parts<M> {
    /// The devices and the medium, in their order.
    fn into_rig(self) -> Rig<M>
        ensures { result ≡ record { medium = self.drive.medium; before = self.boxes.before; after = self.boxes.after; guest = self.boxes.last } }
    {
        let Parts { boxes, drive, .. } = self;
        Rig {
            medium: drive.into_medium(),
            before: boxes.before,
            after: boxes.after,
            guest: boxes.last.into_guest(),
        }
    }
}

/// The simulated loop: the host, the drive over its medium, the devices beside it, the plan and the
/// log. It takes memory in `new` alone. Its parts are in a box, so that a ring is moved at the cost of a pointer.
#[derive(Drop)]
pub struct Ring<M: Medium> {
    pub(crate) parts: Box<Parts<M>>,
}

impl<M: Medium> Seen<M> for Ring<M> {
    ghost use Rattle.il_ring.specs.Seen.{ring_seen};

    ghost seen = { λ r. ring_seen (λ b. (Device-box b).state b.value) r };
}

impl<M: Medium> Ring<M> {
    /// A ring of these devices, with room for `room` entries in its log. The drive is new; the
    /// others are as they come, and nothing has come to them if `Rig::fits` says so. A tape is
    /// in, at most 29 devices are beside the drive, a second controller among them, which does not
    /// control the loop, and `is_plan` holds of the plan.
    ///
    /// The only error is that memory is lacking; it returns the rig.
    pub fn new(
        alloc: Global,
        rig: Rig<M>,
        plan: &[Planned],
        room: usize,
    ) -> Result<Ring<M>, Refused<M>>
        requires few { length rig.before.items + length rig.after.items + length (guest_devices rig.guest) ≤ 29 }
        requires guest { MayBeGuest rig.guest }
        requires tape { 0 < (M.view rig.medium).record_count }
        requires plan { IsPlan plan.now }
        ensures books { IfOk result (λ ring. (⟦<Ring<M> as Seen<M>>⟧.seen ring).books ≡ fresh_books plan.now room) }
        ensures drive { IfOk result (λ ring. (⟦<Ring<M> as Seen<M>>⟧.seen ring).drive ≡ record { state = fresh_drive; medium = rig.medium }) }
        ensures before { IfOk result (λ ring. (⟦<Ring<M> as Seen<M>>⟧.seen ring).before ≡ map (λ b. state b) rig.before.items) }
        ensures after { IfOk result (λ ring. (⟦<Ring<M> as Seen<M>>⟧.seen ring).after ≡ map (λ b. state b) rig.after.items ++ guest_devices rig.guest) }
        ensures guest { IfOk result (λ ring. (⟦<Ring<M> as Seen<M>>⟧.seen ring).guest ≡ guest_mind rig.guest) }
        ensures ring { IfOk result (λ ring. IsRing (⟦<Ring<M> as Seen<M>>⟧.seen ring)) }
        ensures refused { IfErr result (λ refused. refused.rig ≡ rig) }
    {
        let Ok(books) = Books::new(alloc, plan, room) else {
            return Err(Refused { rig });
        };
        let Rig {
            medium,
            before,
            after,
            guest,
        } = rig;
        let last = Last::new(guest);
        let parts = Parts {
            boxes: Boxes {
                before,
                after,
                last,
            },
            drive: Drive::new(medium),
            books,
        };
        match Box::new(alloc, parts) {
            Ok(parts) => Ok(Ring { parts }),
            Err(failed) => Err(Refused {
                rig: failed.value.into_rig(),
            }),
        }
    }

    /// The data or end frame of a device that is held at the host, as it came. `None` if none
    /// is.
    pub fn held(&self) -> Option<Frame>
        ensures { result ≡ option_map (λ f. f.now) (⟦<Ring<M> as Seen<M>>⟧.seen self.now).books.held }
    {
        self.parts.books.held().map(|flight| flight.now)
    }

    /// How many more entries the log has room for.
    pub fn spare(&self) -> usize
        ensures { result ≡ spare_of (⟦<Ring<M> as Seen<M>>⟧.seen self.now) }
    {
        self.parts.books.spare()
    }

    /// The log, oldest entry first.
    pub fn log(&self) -> &[Entry]
        ensures { result.now ≡ (⟦<Ring<M> as Seen<M>>⟧.seen self.now).books.log }
    {
        self.parts.books.log()
    }

    /// Empties the log. The count of crossings and the held frame stay. The log begins here, if no frame is held.
    pub fn clear_log(&mut self)
        ensures { ⟦<Ring<M> as Seen<M>>⟧.seen self.new ≡ ring_emptied (⟦<Ring<M> as Seen<M>>⟧.seen self.old) }
    {
        self.parts.books.clear_log();
    }

    /// How many crossings of links there were since the ring was made. The count stays at its
    /// greatest value, and no fault acts at the crossings after it.
    pub fn crossings(&self) -> u64
        ensures { result ≡ (⟦<Ring<M> as Seen<M>>⟧.seen self.now).books.crossings }
    {
        self.parts.books.crossings()
    }

    /// The medium of the drive, whose tape stays in.
    pub fn medium(&self) -> &M
        ensures medium { result.now ≡ (⟦<Ring<M> as Seen<M>>⟧.seen self.now).drive.medium }
        // What holds of the drive at every moment.
        ensures drive { IsDrive (M.view (⟦<Ring<M> as Seen<M>>⟧.seen self.now).drive.medium).record_count (⟦<Ring<M> as Seen<M>>⟧.seen self.now).drive.state }
    {
        self.parts.drive.medium()
    }

    /// The drive's party, 1 to 30: its place among the devices, counted from the host's output.
    pub fn party(&self) -> u8
        ensures party { result ≡ drive_party (⟦<Ring<M> as Seen<M>>⟧.seen self.now) }
        ensures range { result ≤ 30 }
    {
        self.parts.boxes.before.len() as u8 + 1
    }

    /// The number of devices on the loop, the drive and a second controller among them: 1 to 30.
    pub fn devices(&self) -> u8
        ensures count { result ≡ length (devices_of (⟦<Ring<M> as Seen<M>>⟧.seen self.now)) }
        ensures range { (1 ≤ result) × (result ≤ 30) }
        ensures guest { is_some (⟦<Ring<M> as Seen<M>>⟧.seen self.now).guest ≡ true → 1 ≤ length (⟦<Ring<M> as Seen<M>>⟧.seen self.now).after }
    {
        self.party() + self.parts.boxes.after.len() as u8 + self.parts.boxes.last.count()
    }

    /// The paper of the first printer, counted from the host's output: the first bytes that it
    /// heard, as far as it keeps them, and how many it heard, a count that stays at its greatest
    /// value. `None` if no device has the accessory ID 32 of a printer.
    pub fn paper(&self) -> Option<(&[u8], u64)>
        ensures { option_map (λ p. (p.0.now, p.1)) result ≡ paper_of ((⟦<Ring<M> as Seen<M>>⟧.seen self.now).before ++ (⟦<Ring<M> as Seen<M>>⟧.seen self.now).after) }
    {
        let boxes = &self.parts.boxes;
        paper_in(&boxes.before)
            .or(paper_in(&boxes.after))
            .or(boxes.last.paper())
    }

    /// The second controller, which is last on the loop.
    pub fn guest(&self) -> Option<&Guest>
        ensures mind { guest_mind (option_map (λ g. g.now) result) ≡ (⟦<Ring<M> as Seen<M>>⟧.seen self.now).guest }
        ensures device { StandsLast (option_map (λ g. g.now) result) (⟦<Ring<M> as Seen<M>>⟧.seen self.now).after }
    {
        self.parts.boxes.last.guest()
    }

    /// The devices and the medium as the ring leaves them, in their order.
    pub fn into_rig(self) -> Rig<M>
        ensures medium { result.medium ≡ (⟦<Ring<M> as Seen<M>>⟧.seen self).drive.medium }
        ensures before { map (λ b. state b) result.before.items ≡ (⟦<Ring<M> as Seen<M>>⟧.seen self).before }
        ensures after { map (λ b. state b) result.after.items ++ guest_devices result.guest ≡ (⟦<Ring<M> as Seen<M>>⟧.seen self).after }
        ensures guest { guest_mind result.guest ≡ (⟦<Ring<M> as Seen<M>>⟧.seen self).guest }
    {
        Box::into_inner(self.parts).into_rig()
    }

    /// The host sends a frame, which goes round the loop. What arrives at the host: the frame as it
    /// came back; or one that a device sent in its place, which is held if it is a data or end
    /// frame; or `Lost`, if and only if a planned fault lost the frame that was on its way. What was
    /// held before is held on if the frame came back, and else dropped.
    ///
    /// The log has room for 32 more entries, and no frame is held, or the frame is NRD, which goes
    /// ahead of the held one.
    ///
    /// If a second controller talks, TCT lends the ring to it: what then arrives is the frame that
    /// it sends, or `Lost`. While it controls, also if it fell silent and the ring is lent no more,
    /// the host sends nothing but IFC. What is at the host then ends there, and the ring is lent
    /// no more.
    pub fn send(&mut self, frame: Frame) -> Arrival
        requires room { 32 ≤ spare_of (⟦<Ring<M> as Seen<M>>⟧.seen self.old) }
        requires free { ((⟦<Ring<M> as Seen<M>>⟧.seen self.old).books.held ≡ None) ⊎ (frame ≡ nrd) }
        requires leads { IsUnderHost (⟦<Ring<M> as Seen<M>>⟧.seen self.old).guest ⊎ (frame ≡ ifc) }
        ensures round { HostKeeps (⟦<Ring<M> as Seen<M>>⟧.seen self.old) frame →
            Round M.view (⟦<Ring<M> as Seen<M>>⟧.seen self.old) (⟦<Ring<M> as Seen<M>>⟧.seen self.old).books.held (sourced 0 frame) result (⟦<Ring<M> as Seen<M>>⟧.seen self.new) }
        // The entries show how many links were crossed, and how many frames came to each device.
        ensures counts { HostKeeps (⟦<Ring<M> as Seen<M>>⟧.seen self.old) frame →
            Rounded (⟦<Ring<M> as Seen<M>>⟧.seen self.old) (⟦<Ring<M> as Seen<M>>⟧.seen self.old).books.held (sourced 0 frame) result (⟦<Ring<M> as Seen<M>>⟧.seen self.new) }
        // A command or ready message comes back as it was, or is lost exactly at a planned hop.
        ensures plain { HostKeeps (⟦<Ring<M> as Seen<M>>⟧.seen self.old) frame →
            IsRing (⟦<Ring<M> as Seen<M>>⟧.seen self.old) → is_plain (message_of frame) ≡ true →
            Returned (⟦<Ring<M> as Seen<M>>⟧.seen self.old) (⟦<Ring<M> as Seen<M>>⟧.seen self.old).books.held frame frame result (⟦<Ring<M> as Seen<M>>⟧.seen self.new)
            ⊎ WasLost (⟦<Ring<M> as Seen<M>>⟧.seen self.old) 0 frame result (⟦<Ring<M> as Seen<M>>⟧.seen self.new) }
        // If no device talks, a data or end frame comes back the same apart from the service bit
        // if and only if no planned hop is reached; each listener hears its byte.
        ensures data { HostKeeps (⟦<Ring<M> as Seen<M>>⟧.seen self.old) frame →
            IsRing (⟦<Ring<M> as Seen<M>>⟧.seen self.old) → is_data frame ≡ true → AllSilent (devices_of (⟦<Ring<M> as Seen<M>>⟧.seen self.old)) →
            DataReturned (⟦<Ring<M> as Seen<M>>⟧.seen self.old) (⟦<Ring<M> as Seen<M>>⟧.seen self.old).books.held frame result (⟦<Ring<M> as Seen<M>>⟧.seen self.new)
            ⊎ DataBroken (⟦<Ring<M> as Seen<M>>⟧.seen self.old) (⟦<Ring<M> as Seen<M>>⟧.seen self.old).books.held frame result (⟦<Ring<M> as Seen<M>>⟧.seen self.new) }
        // A start message is passed by all, lost, or taken by the one device that talks.
        ensures start { HostKeeps (⟦<Ring<M> as Seen<M>>⟧.seen self.old) frame →
            IsRing (⟦<Ring<M> as Seen<M>>⟧.seen self.old) → is_start (message_of frame) ≡ true → NoneSends (devices_of (⟦<Ring<M> as Seen<M>>⟧.seen self.old))
            → is_at_most_one (talkers (roles_of (devices_of (⟦<Ring<M> as Seen<M>>⟧.seen self.old)))) ≡ true →
            StartReturned (⟦<Ring<M> as Seen<M>>⟧.seen self.old) (⟦<Ring<M> as Seen<M>>⟧.seen self.old).books.held frame result (⟦<Ring<M> as Seen<M>>⟧.seen self.new)
            ⊎ (StartGone (⟦<Ring<M> as Seen<M>>⟧.seen self.old) frame result (⟦<Ring<M> as Seen<M>>⟧.seen self.new)
            ⊎ StartTaken (⟦<Ring<M> as Seen<M>>⟧.seen self.old) frame result (⟦<Ring<M> as Seen<M>>⟧.seen self.new)) }
        // No device hears anything that does not listen.
        ensures kept { HostKeeps (⟦<Ring<M> as Seen<M>>⟧.seen self.old) frame →
            AllKeep (devices_of (⟦<Ring<M> as Seen<M>>⟧.seen self.old)) (devices_of (⟦<Ring<M> as Seen<M>>⟧.seen self.new)) }
        // TCT lends the ring if it comes to a second controller that talks.
        ensures handed { IsUnderHost (⟦<Ring<M> as Seen<M>>⟧.seen self.old).guest →
            hands_over (⟦<Ring<M> as Seen<M>>⟧.seen self.old) frame ≡ true
            → ControlledRound M.view (⟦<Ring<M> as Seen<M>>⟧.seen self.old) (sourced 0 frame) result (⟦<Ring<M> as Seen<M>>⟧.seen self.new) }
        ensures lent { IsRing (⟦<Ring<M> as Seen<M>>⟧.seen self.old) → IsUnderHost (⟦<Ring<M> as Seen<M>>⟧.seen self.old).guest →
            hands_over (⟦<Ring<M> as Seen<M>>⟧.seen self.old) frame ≡ true
            → (IsRing (⟦<Ring<M> as Seen<M>>⟧.seen self.new) × IsUnderHost (⟦<Ring<M> as Seen<M>>⟧.seen self.new).guest)
            ⊎ (IsControlled (⟦<Ring<M> as Seen<M>>⟧.seen self.new) × StandsNow result (⟦<Ring<M> as Seen<M>>⟧.seen self.new).books.lent) }
        // It was lost before that one, and the host controls still; or that one took it, and the first frame of its
        // rounds is at the host, or was lost on the last link.
        ensures over { IsRing (⟦<Ring<M> as Seen<M>>⟧.seen self.old) → IsUnderHost (⟦<Ring<M> as Seen<M>>⟧.seen self.old).guest →
            frame ≡ tct → hands_over (⟦<Ring<M> as Seen<M>>⟧.seen self.old) tct ≡ true
            → HandLost (⟦<Ring<M> as Seen<M>>⟧.seen self.old) result (⟦<Ring<M> as Seen<M>>⟧.seen self.new)
            ⊎ HandedOver (⟦<Ring<M> as Seen<M>>⟧.seen self.old) result (⟦<Ring<M> as Seen<M>>⟧.seen self.new) }
        // IFC takes control back from a second controller.
        ensures taken_back { leads (⟦<Ring<M> as Seen<M>>⟧.seen self.old).guest ≡ true →
            TakesBack M.view (⟦<Ring<M> as Seen<M>>⟧.seen self.old) frame result (⟦<Ring<M> as Seen<M>>⟧.seen self.new) }
        ensures back { IsControlled (⟦<Ring<M> as Seen<M>>⟧.seen self.old) →
            (IsRing (⟦<Ring<M> as Seen<M>>⟧.seen self.new) × IsUnderHost (⟦<Ring<M> as Seen<M>>⟧.seen self.new).guest)
            ⊎ (IsControlled (⟦<Ring<M> as Seen<M>>⟧.seen self.new) × (result ≡ arrival.Lost) × ((⟦<Ring<M> as Seen<M>>⟧.seen self.new).books.lent ≡ None)) }
    {
        self.end_lending();
        self.round(Flight::sourced(0, frame))
    }

    /// Does the same as `send`, if the host controls the loop and no frame is held. If nothing is planned, the frame
    /// takes a fast path, which is inlined for the bytes of a record: the flight is not written to memory, and no
    /// lending is looked for.
    #[inline(always)]
    pub fn send_soon(&mut self, frame: Frame) -> Arrival
        requires room { 32 ≤ spare_of (⟦<Ring<M> as Seen<M>>⟧.seen self.old) }
        requires free { (⟦<Ring<M> as Seen<M>>⟧.seen self.old).books.held ≡ None }
        requires leads { IsUnderHost (⟦<Ring<M> as Seen<M>>⟧.seen self.old).guest }
        ensures { HostKeeps (⟦<Ring<M> as Seen<M>>⟧.seen self.old) frame →
            Round M.view (⟦<Ring<M> as Seen<M>>⟧.seen self.old) (⟦<Ring<M> as Seen<M>>⟧.seen self.old).books.held (sourced 0 frame) result (⟦<Ring<M> as Seen<M>>⟧.seen self.new) }
    {
        if self.is_clear() {
            self.round_clear(Flight::sourced(0, frame))
        } else {
            self.send(frame)
        }
    }

    /// If a second controller controls, what was lent ends.
    fn end_lending(&mut self)
        requires { 2 ≤ spare_of (⟦<Ring<M> as Seen<M>>⟧.seen self.old) }
        ensures { ⟦<Ring<M> as Seen<M>>⟧.seen self.new ≡ about_to_send (⟦<Ring<M> as Seen<M>>⟧.seen self.old) }
    {
        if self.parts.boxes.last.leads() {
            let party = self.devices();
            self.parts.books.end_lending(party);
        }
    }

    /// Whether the ring is lent to the second controller: a frame is at the host, which `pass`
    /// sends on.
    pub fn is_lent(&self) -> bool
        ensures { result ≡ is_some (⟦<Ring<M> as Seen<M>>⟧.seen self.now).books.lent }
    {
        self.parts.books.lent().is_some()
    }

    /// While the ring is lent, the frame that is at the host goes on round the loop. What arrives
    /// at the host, and is there then: what the second controller sends; or `Lost`, if and only if
    /// a planned fault lost the frame that was on its way or the second controller fell silent. The
    /// ring is then lent no more.
    ///
    /// The ring is lent, and the log has room for 32 more entries.
    pub fn pass(&mut self) -> Arrival
        requires lent { IsSome (⟦<Ring<M> as Seen<M>>⟧.seen self.old).books.lent }
        requires room { 32 ≤ spare_of (⟦<Ring<M> as Seen<M>>⟧.seen self.old) }
        // The place of the second controller in its rounds shows which frame is at the host.
        ensures controlled { IsControlled (⟦<Ring<M> as Seen<M>>⟧.seen self.old) →
            IsControlled (⟦<Ring<M> as Seen<M>>⟧.seen self.new) × StandsNow result (⟦<Ring<M> as Seen<M>>⟧.seen self.new).books.lent }
        ensures round { IfSome (⟦<Ring<M> as Seen<M>>⟧.seen self.old).books.lent (λ f.
            ControlledRound M.view (going_on (⟦<Ring<M> as Seen<M>>⟧.seen self.old)) f result (⟦<Ring<M> as Seen<M>>⟧.seen self.new)) }
        // As the second controller sees it, it is the host of the ring of the devices before it: so the frame goes
        // round that ring, as one of the host's, and what it then sends comes to the host.
        ensures halves { IsControlled (⟦<Ring<M> as Seen<M>>⟧.seen self.old) → (held : Option Flight) → (f : Flight) →
            (⟦<Ring<M> as Seen<M>>⟧.seen self.old).books.lent ≡ Some (turned_flight (length (devices_of (⟦<Ring<M> as Seen<M>>⟧.seen self.old))) f)
            → f.source < length (devices_of (⟦<Ring<M> as Seen<M>>⟧.seen self.old))
            → HalvesOfRound M.view (going_on (⟦<Ring<M> as Seen<M>>⟧.seen self.old)) held f result (⟦<Ring<M> as Seen<M>>⟧.seen self.new) }
        // If the source of each data frame that is under way awaits it, the entries show how many links were
        // crossed, how many frames came to each device, and the roles; and each command is the second controller's.
        ensures counts { IsControlled (⟦<Ring<M> as Seen<M>>⟧.seen self.old) → (f : Flight) → IsUnderWay (⟦<Ring<M> as Seen<M>>⟧.seen self.old) f →
            ControlledAdds (⟦<Ring<M> as Seen<M>>⟧.seen self.old) (⟦<Ring<M> as Seen<M>>⟧.seen self.new) }
    {
        let flight = self.parts.books.take_lent().unwrap();
        self.round(flight)
    }

    /// The held frame goes on from the host to its source. What arrives at the host: what the
    /// source sent after it, which is held if it is a data or end frame, or `Lost`, if and only
    /// if a planned fault lost the frame that was on its way.
    ///
    /// A frame is held, and the log has room for 32 more entries.
    pub fn relay(&mut self) -> Arrival
        requires held { IsSome (⟦<Ring<M> as Seen<M>>⟧.seen self.old).books.held }
        requires room { 32 ≤ spare_of (⟦<Ring<M> as Seen<M>>⟧.seen self.old) }
        ensures round { IsUnderHost (⟦<Ring<M> as Seen<M>>⟧.seen self.old).guest →
            IfSome (⟦<Ring<M> as Seen<M>>⟧.seen self.old).books.held (λ f. Round M.view (⟦<Ring<M> as Seen<M>>⟧.seen self.old) None f result (⟦<Ring<M> as Seen<M>>⟧.seen self.new)) }
        // If its source is the one device that talks and has it on the loop, it comes back to it,
        // which sends a further data frame, ETO or ETE; or it is lost at a planned hop.
        ensures relayed { IsUnderHost (⟦<Ring<M> as Seen<M>>⟧.seen self.old).guest →
            IsRing (⟦<Ring<M> as Seen<M>>⟧.seen self.old) → IfSome (⟦<Ring<M> as Seen<M>>⟧.seen self.old).books.held
            (λ f. (own : OwnFrame) → IsTalking f.source (Some own) (devices_of (⟦<Ring<M> as Seen<M>>⟧.seen self.old)) → own.frame ≡ f.sent → StoodSo f
            → Relayed (⟦<Ring<M> as Seen<M>>⟧.seen self.old) f own result (⟦<Ring<M> as Seen<M>>⟧.seen self.new)) }
        // If its source has an own frame on the loop, the entries show how many links were crossed, and how many
        // frames came to each device.
        ensures counts { IsUnderHost (⟦<Ring<M> as Seen<M>>⟧.seen self.old).guest →
            IfSome (⟦<Ring<M> as Seen<M>>⟧.seen self.old).books.held (λ f. IsReady f (devices_of (⟦<Ring<M> as Seen<M>>⟧.seen self.old))
            → Rounded (⟦<Ring<M> as Seen<M>>⟧.seen self.old) None f result (⟦<Ring<M> as Seen<M>>⟧.seen self.new)) }
        // No device hears anything that does not listen.
        ensures kept { IsUnderHost (⟦<Ring<M> as Seen<M>>⟧.seen self.old).guest →
            AllKeep (devices_of (⟦<Ring<M> as Seen<M>>⟧.seen self.old)) (devices_of (⟦<Ring<M> as Seen<M>>⟧.seen self.new)) }
    {
        let flight = self.parts.books.take_held().unwrap();
        self.round(flight)
    }

    /// A frame goes round. If a lending has just ended, two of the 32 entries are used; the frame is then IFC,
    /// which adds at most one. A frame that reaches nothing planned and no second controller takes a fast path.
    #[inline(always)]
    fn round(&mut self, flight: Flight) -> Arrival
        requires room { (32 ≤ spare_of (⟦<Ring<M> as Seen<M>>⟧.seen self.old))
            ⊎ ((30 ≤ spare_of (⟦<Ring<M> as Seen<M>>⟧.seen self.old)) × (flight ≡ sourced 0 ifc)) }
        ensures { ControlledRound M.view (⟦<Ring<M> as Seen<M>>⟧.seen self.old) flight result (⟦<Ring<M> as Seen<M>>⟧.seen self.new) }
    {
        if self.is_clear() {
            self.round_clear(flight)
        } else {
            // A copy for the call, so that `flight` itself needs no address and stays in registers on the fast path.
            let apart = flight;
            self.round_apart(apart)
        }
    }

    /// Whether a frame that goes round reaches nothing planned, and no second controller.
    #[inline(always)]
    fn is_clear(&self) -> bool
        ensures way { result ≡ true → IsClear (⟦<Ring<M> as Seen<M>>⟧.seen self.now).books.plan (⟦<Ring<M> as Seen<M>>⟧.seen self.now).books.crossings 31 }
        ensures alone { result ≡ true → (⟦<Ring<M> as Seen<M>>⟧.seen self.now).guest ≡ None }
    {
        self.parts.books.is_clear() && self.parts.boxes.last.count() == 0
    }

    /// A frame that reaches nothing planned, and no second controller, goes round.
    #[inline(always)]
    fn round_clear(&mut self, flight: Flight) -> Arrival
        requires room { (32 ≤ spare_of (⟦<Ring<M> as Seen<M>>⟧.seen self.old))
            ⊎ ((30 ≤ spare_of (⟦<Ring<M> as Seen<M>>⟧.seen self.old)) × (flight ≡ sourced 0 ifc)) }
        requires way { IsClear (⟦<Ring<M> as Seen<M>>⟧.seen self.old).books.plan (⟦<Ring<M> as Seen<M>>⟧.seen self.old).books.crossings 31 }
        requires alone { (⟦<Ring<M> as Seen<M>>⟧.seen self.old).guest ≡ None }
        ensures { ControlledRound M.view (⟦<Ring<M> as Seen<M>>⟧.seen self.old) flight result (⟦<Ring<M> as Seen<M>>⟧.seen self.new) }
    {
        let party = self.party();
        let Parts {
            boxes,
            drive,
            books,
        } = &mut *self.parts;
        let on = walk_past_clear(&mut boxes.before, 1, books, flight);
        let on = pass_drive_clear(drive, party, books, on);
        let on = walk_past_clear(&mut boxes.after, party + 1, books, on);
        books.home_clear(on)
    }

    /// A frame goes round. The frame that is held then is returned and not kept in the books, so that it can stay in
    /// registers until it goes on. The one that was held before is dropped.
    #[inline(always)]
    pub(crate) fn round_on(&mut self, flight: Flight) -> Came
        requires room { 32 ≤ spare_of (⟦<Ring<M> as Seen<M>>⟧.seen self.old) }
        ensures { ControlledRound M.view (with_held (⟦<Ring<M> as Seen<M>>⟧.seen self.old) None) flight result.arrival (with_held (⟦<Ring<M> as Seen<M>>⟧.seen self.new) result.standing) }
    {
        if self.is_clear() {
            self.round_on_clear(flight)
        } else {
            // A copy, as in `round`.
            let apart = flight;
            self.round_on_apart(apart)
        }
    }

    /// Does the same as `round_on`, if nothing is planned and there is no second controller.
    #[inline(always)]
    fn round_on_clear(&mut self, flight: Flight) -> Came
        requires room { 32 ≤ spare_of (⟦<Ring<M> as Seen<M>>⟧.seen self.old) }
        requires way { IsClear (⟦<Ring<M> as Seen<M>>⟧.seen self.old).books.plan (⟦<Ring<M> as Seen<M>>⟧.seen self.old).books.crossings 31 }
        requires alone { (⟦<Ring<M> as Seen<M>>⟧.seen self.old).guest ≡ None }
        ensures { ControlledRound M.view (with_held (⟦<Ring<M> as Seen<M>>⟧.seen self.old) None) flight result.arrival (with_held (⟦<Ring<M> as Seen<M>>⟧.seen self.new) result.standing) }
    {
        let party = self.party();
        let Parts {
            boxes,
            drive,
            books,
        } = &mut *self.parts;
        let on = walk_past_clear(&mut boxes.before, 1, books, flight);
        let on = pass_drive_clear(drive, party, books, on);
        let on = walk_past_clear(&mut boxes.after, party + 1, books, on);
        Came {
            arrival: Arrival::Frame(on.now),
            standing: books.come_clear(on),
        }
    }

    /// Does the same as `round_on` in every case.
    #[inline(never)]
    fn round_on_apart(&mut self, flight: Flight) -> Came
        requires room { 32 ≤ spare_of (⟦<Ring<M> as Seen<M>>⟧.seen self.old) }
        ensures { ControlledRound M.view (with_held (⟦<Ring<M> as Seen<M>>⟧.seen self.old) None) flight result.arrival (with_held (⟦<Ring<M> as Seen<M>>⟧.seen self.new) result.standing) }
    {
        self.parts.books.take_held();
        let arrival = self.round_apart(flight);
        Came {
            arrival,
            standing: self.parts.books.hand_out(),
        }
    }

    /// A frame goes round, whatever it reaches.
    #[inline(never)]
    fn round_apart(&mut self, flight: Flight) -> Arrival
        requires room { (32 ≤ spare_of (⟦<Ring<M> as Seen<M>>⟧.seen self.old))
            ⊎ ((30 ≤ spare_of (⟦<Ring<M> as Seen<M>>⟧.seen self.old)) × (flight ≡ sourced 0 ifc)) }
        ensures { ControlledRound M.view (⟦<Ring<M> as Seen<M>>⟧.seen self.old) flight result (⟦<Ring<M> as Seen<M>>⟧.seen self.new) }
    {
        let party = self.party();
        let Parts {
            boxes,
            drive,
            books,
        } = &mut *self.parts;
        let on = walk_past(&mut boxes.before, 1, books, Some(flight));
        let on = pass_drive(drive, party, books, on);
        let on = walk_past(&mut boxes.after, party + 1, books, on);
        let last = party + 1 + boxes.after.len() as u8;
        let on = boxes.last.pass(last, books, on);
        if boxes.last.leads() {
            books.lent_home(on, last)
        } else {
            books.home(on)
        }
    }
}
