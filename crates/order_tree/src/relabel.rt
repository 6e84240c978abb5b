//! New labels for the runs of a leaf.

ghost use Rattle.std.specs.Prelude.{◌≡◌, ◌+◌, ◌<◌, ◌≤◌, ◌^◌, nat_eq, nat_lt, if◌then◌else◌, ◌++◌, length, vec_capacity};
ghost use Rattle.order_tree.specs.Parts.{last_known};
ghost use Rattle.order_tree.specs.Relabels.{relabelled, renamed, reached};

use ew_model::run::Run;

/// How far new labels have come: the last of them, and the last of a run with a known character (0 for none).
#[derive(Clone, Copy, Debug)]
pub struct Reached {
    pub last: u64,
    pub last_known: u64,
}

impl Reached {
    /// What is reached where these runs are followed by others that reach `next`.
    pub fn then(self, next: Reached) -> Reached
        ensures last { result.last ≡ next.last }
        ensures known { result.last_known ≡ (if nat_eq next.last_known 0 then self.last_known else next.last_known) }
    {
        Reached {
            last: next.last,
            last_known: if next.last_known == 0 {
                self.last_known
            } else {
                next.last_known
            },
        }
    }

    /// What one run reaches under this label.
    fn by<R: Run>(run: &R, label: u64) -> Reached
        ensures last { result.last ≡ label }
        ensures known { result.last_known ≡ (if nat_lt 0 (R.known run.now) then label else 0) }
    {
        Reached {
            last: label,
            last_known: if run.known_sum() > 0 { label } else { 0 },
        }
    }
}

/// Gives the runs of a leaf new labels, each a step above the one before, and notes of each run the old label and
/// the new, and the run.
pub fn relabel_entries<R: Run + Copy>(
    entries: &mut Vec<(u64, R)>,
    before: u64,
    step: u64,
    given: &mut Vec<(u64, (u64, R))>,
) -> Reached
    requires room { length given.old.items + length entries.old.items ≤ vec_capacity given.old }
    requires small { reached step before entries.old.items < 2 ^ 64 }
    ensures items { entries.new.items ≡ relabelled step before entries.old.items }
    ensures room { vec_capacity entries.old ≤ vec_capacity entries.new }
    ensures given { given.new.items ≡ given.old.items ++ renamed step before entries.old.items }
    ensures capacity { vec_capacity given.old ≤ vec_capacity given.new }
    ensures last { result.last ≡ reached step before entries.old.items }
    ensures known { result.last_known ≡ last_known R.known entries.new.items }
{
    let mut reached = Reached {
        last: before,
        last_known: 0,
    };
    for entry in entries.iter_mut() {
        let label = reached.last + step;
        reached = reached.then(Reached::by(&entry.1, label));
        given.push_reserved((entry.0, (label, entry.1)));
        entry.0 = label;
    }
    reached
}
