ghost use Rattle.std.specs.Prelude.{◌≡◌, ◌<◌, ◌≤◌, ◌+◌, [], ◌∷◌, length, nat_lt, option_map, All};
ghost use Rattle.std.specs.List.{take_while};
ghost use Rattle.std.specs.Option.{IfSome, OnSome};
ghost use Rattle.arrayvec.specs.ArrayVec.{array_vec_len};
ghost use Rattle.il_ring.specs.Plans.{IsPlan};
ghost use Rattle.il_words.specs.Planning.{is_named, placed, all_placed, plan_by};

use crate::faults::FaultList;
use arrayvec::ArrayVec;
use il_ring::Planned;

/// The most faults that are planned: those of two lists.
pub(crate) const MOST_PLANNED: usize = 128;

/// Whether a fault is planned at that crossing.
fn is_named(plan: &[Planned], hop: u64) -> bool
    ensures { result ≡ is_named hop plan.now }
{
    plan.iter().any(|planned| planned.hop == hop)
}

/// How many faults are planned at smaller crossings.
fn count_before(plan: &[Planned], hop: u64) -> usize
    ensures { result ≡ length (take_while (λ planned. nat_lt planned.hop hop) plan.now) }
{
    plan.iter().take_while(|planned| planned.hop < hop).count()
}

/// Puts a fault to its place by rising crossings. `None` comes exactly where its crossing has a fault already.
fn place(plan: &mut ArrayVec<Planned, MOST_PLANNED>, fault: Planned) -> Option<()>
    requires room { array_vec_len plan.old < MOST_PLANNED }
    requires rising { IsPlan plan.old.items }
    requires planned { IsPlan (fault ∷ []) }
    ensures placed { option_map (λ _. plan.new.items) result ≡ placed fault plan.old.items }
    ensures rising { OnSome result (IsPlan plan.new.items) }
    ensures len { OnSome result (array_vec_len plan.new ≡ array_vec_len plan.old + 1) }
{
    if is_named(plan, fault.hop) {
        return None;
    }
    plan.insert(count_before(plan, fault.hop), fault);
    Some(())
}

/// Puts faults to their places, one after the other. `None` comes exactly where a crossing has two.
fn place_all(plan: &mut ArrayVec<Planned, MOST_PLANNED>, faults: &[Planned]) -> Option<()>
    requires room { array_vec_len plan.old + length faults.now ≤ MOST_PLANNED }
    requires rising { IsPlan plan.old.items }
    requires planned { All (λ fault. IsPlan (fault ∷ [])) faults.now }
    ensures placed { option_map (λ _. plan.new.items) result ≡ all_placed faults.now plan.old.items }
    ensures rising { OnSome result (IsPlan plan.new.items) }
    ensures len { OnSome result (array_vec_len plan.new ≡ array_vec_len plan.old + length faults.now) }
{
    'faults: for fault in faults {
        place(plan, *fault)?;
    }
    Some(())
}

/// The faults that `--lose` and `--alter` plan, by rising crossings. `None` comes exactly where a list is not in its
/// grammar, and where a crossing is named twice in the two lists together.
pub(crate) fn read_plan(
    losses: Option<&str>,
    alterations: Option<&str>,
) -> Option<ArrayVec<Planned, MOST_PLANNED>>
    ensures plan { option_map (λ plan. plan.items) result ≡ plan_by (option_map (λ text. text.now) losses.entry) (option_map (λ text. text.now) alterations.entry) }
    ensures rising { IfSome result (λ plan. IsPlan plan.items) }
{
    let losses = FaultList::Losses.read_given(losses)?;
    let alterations = FaultList::Alterations.read_given(alterations)?;
    let mut plan = ArrayVec::new();
    place_all(&mut plan, &losses)?;
    place_all(&mut plan, &alterations)?;
    Some(plan)
}
