//! The choice among candidates.
ghost use Rattle.std.specs.Prelude.{◌≡◌, option_map};
ghost use Rattle.control_rules.specs.Collection.{collected_place, earlier, first_place, place_of};
ghost use Rattle.revision_gc.specs.Choices.{candidate_as, best_of, pick_of, counts_by};

use crate::ages::{Age, age_of};
use control_rules::{Candidate, GcSettings};
use json_tree::Seq;

/// Which of the candidates is collected.
#[derive(Clone, Copy, Debug, PartialEq, Eq)]
pub enum Pick {
    /// The first of the stale ones.
    Stale,
    /// The first of all.
    First,
    /// None.
    Nobody,
}

/// Which of so many candidates is collected: the first stale one, where one is stale and there are more than the least
/// number; else the first of all, where there are more than the most.
pub fn choose(settings: &GcSettings, count: u64, some_stale: bool) -> Pick
    ensures { result ≡ pick_of settings.now count some_stale }
{
    if some_stale && count > settings.least {
        return Pick::Stale;
    }
    match settings.most {
        Some(most) if count > most => Pick::First,
        _ => Pick::Nobody,
    }
}

// Which candidates count.
#[derive(Clone, Copy)]
enum Among<'a> {
    // All of them.
    All,
    // Those that are stale by the settings at the moment.
    Stale(&'a GcSettings, u64),
}

impl Among<'_> {
    fn counts(&self, candidate: &Age) -> bool
        ensures { result ≡ counts_by self.now (candidate_as candidate.now) }
    {
        match self {
            Among::All => true,
            Among::Stale(settings, now) => candidate.is_stale(settings, *now),
        }
    }
}

// The first candidate so far.
#[derive(Clone, Copy)]
struct Best<'a> {
    place: u64,
    candidate: &'a Candidate,
}

// The first so far, or the one at the place, where it counts and comes before.
fn earlier<'a>(
    counted: bool,
    place: u64,
    candidate: &'a Candidate,
    best: Option<Best<'a>>,
) -> Option<Best<'a>>
    ensures { option_map best_of result ≡ earlier counted place candidate.now (option_map best_of best.entry) }
{
    if !counted {
        return best;
    }
    match best {
        Some(other) => {
            if age_of(candidate).comes_before(&age_of(other.candidate)) {
                Some(Best { place, candidate })
            } else {
                best
            }
        }
        None => Some(Best { place, candidate }),
    }
}

// The place alone.
fn place_of(best: Option<Best<'_>>) -> Option<u64>
    ensures { result ≡ place_of (option_map best_of best.entry) }
{
    match best {
        Some(best) => Some(best.place),
        None => None,
    }
}

// The place of the first candidate that counts.
fn first_place(candidates: &[Candidate], among: &Among) -> Option<u64>
    ensures { result ≡ first_place (counts_by among.now) candidates.now }
{
    let mut best = None;
    for place in 0..candidates.len() {
        let candidate = &candidates[place];
        best = earlier(
            among.counts(&age_of(candidate)),
            place as u64,
            candidate,
            best,
        );
    }
    place_of(best)
}

/// The place of the candidate that is collected.
///
/// A candidate is stale where at least one of the two times counts, and each that counts has passed since its moment.
/// The order is by active moment, then by generation, then by name, then by place. Where there are more candidates than
/// `least`, the answer is the first stale one. Else, where `most` counts and there are more, it is the first of all.
pub fn collect(candidates: &Seq<Candidate>, now: u64, settings: &GcSettings) -> Option<u64>
    ensures { result ≡ collected_place settings.now now candidates.now }
{
    let list = candidates.as_slice();
    let stale = first_place(list, &Among::Stale(settings, now));
    match choose(settings, list.len() as u64, stale.is_some()) {
        Pick::Stale => stale,
        Pick::First => first_place(list, &Among::All),
        Pick::Nobody => None,
    }
}
