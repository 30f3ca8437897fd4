ghost use Rattle.std.specs.Prelude.{◌≡◌, ◌<◌, [], ◌∷◌, true, option_map, All};
ghost use Rattle.std.specs.Option.{IfSome};
ghost use Rattle.il_ring.specs.Plans.{is_fault, IsPlan};
ghost use Rattle.il_words.specs.Faults.{crossing_in, change_in, item_in, list_in, list_if};

use crate::halves::halves;
use arrayvec::ArrayVec;
use il_ring::{PlanFault, Planned};
use il_script::{read_byte, read_number};

/// The greatest number of a crossing that can be named, with 18 digits.
const GREATEST_CROSSING: u64 = 999_999_999_999_999_999;

/// The most faults that one option lists.
pub(crate) const MOST_LISTED: usize = 64;

/// An option that lists faults, separated by commas.
#[derive(Clone, Copy)]
pub(crate) enum FaultList {
    /// `--lose`, with items `H`: the frame is lost at crossing H.
    Losses,
    /// `--alter`, with items `H:XX`: the byte is altered by XX at crossing H.
    Alterations,
}

/// The number of a crossing.
fn read_crossing(text: &str) -> Option<u64>
    ensures crossing { result ≡ crossing_in text.now }
    ensures least { IfSome result (λ hop. 0 < hop) }
{
    read_number(text.as_bytes(), GREATEST_CROSSING)
}

/// The byte of an alteration, in two hex digits.
fn read_change(text: &str) -> Option<PlanFault>
    ensures change { result ≡ change_in text.now }
    ensures another { IfSome result (λ fault. is_fault fault ≡ true) }
{
    match read_byte(text.as_bytes())? {
        0 => None,
        change => Some(PlanFault::Alter(change)),
    }
}

impl FaultList {
    /// The fault that one item of the list plans.
    fn read_item(self, item: &str) -> Option<Planned>
        ensures fault { result ≡ item_in self item.now }
        ensures planned { IfSome result (λ fault. IsPlan (fault ∷ [])) }
    {
        match self {
            FaultList::Losses => Some(Planned {
                hop: read_crossing(item)?,
                fault: PlanFault::Lose,
            }),
            FaultList::Alterations => {
                let (hop, change) = halves(item)?;
                Some(Planned {
                    hop: read_crossing(hop)?,
                    fault: read_change(change)?,
                })
            }
        }
    }

    /// The faults of a list, in its order. `None` comes exactly where an item is none of the option's, and where there
    /// are more than 64 items.
    fn read(self, list: &str) -> Option<ArrayVec<Planned, MOST_LISTED>>
        ensures faults { option_map (λ faults. faults.items) result ≡ list_in self list.now }
        ensures planned { IfSome result (λ faults. All (λ fault. IsPlan (fault ∷ [])) faults.items) }
    {
        let mut faults = ArrayVec::new();
        'items: for item in list.split(',') {
            let fault = self.read_item(item)?;
            faults.try_push(fault).ok()?;
        }
        Some(faults)
    }

    /// The faults of the option, in its order: none where it is not given. `None` comes exactly where the list is not
    /// in its grammar, which has 1 to 64 items.
    pub(crate) fn read_given(self, list: Option<&str>) -> Option<ArrayVec<Planned, MOST_LISTED>>
        ensures faults { option_map (λ faults. faults.items) result ≡ list_if self (option_map (λ text. text.now) list.entry) }
        ensures planned { IfSome result (λ faults. All (λ fault. IsPlan (fault ∷ [])) faults.items) }
    {
        match list {
            Some(list) => self.read(list),
            None => Some(ArrayVec::new()),
        }
    }
}
