// What the names of typedefs mean.
ghost use Rattle.std.specs.Prelude.{◌≡◌, ◌<◌, [], ◌∷◌, ◌++◌, length, reverse, Some, MatchOption, IfOk, OnOk, slice_get, slice_set};
ghost use Rattle.std.specs.Option.{option_copied};
ghost use Rattle.gt_scope.specs.Kinds.{unkept};
ghost use Rattle.gt_scope.specs.Chains.{IsMemo, IsWalked, IsMeaningAt, AreMeanings};

use crate::kinds::{Meant, meant_after, opaque_meaning};
use crate::link::{Link, Target};
use gt_items::Stars;
use std::alloc::{AllocError, Global};

/// The item at a place, from 0.
pub fn item_at<X>(items: &[X], place: usize) -> Option<&X>
    ensures item { option_copied result ≡ slice_get items.now place }
{
    items.get(place)
}

/// A walk along typedefs: their places in order, and the meaning of what the last leads to.
#[derive(Drop)]
struct Walked {
    way: Vec<usize>,
    means: Meant,
}

/// The meaning of a typedef, where it is known.
fn note_at(memo: &[Option<Meant>], at: usize) -> Option<Meant>
    requires within { at < length memo.now }
    ensures known { Some result ≡ slice_get memo.now at }
{
    memo[at]
}

/// Notes the meaning of a typedef.
fn note(memo: &mut Vec<Option<Meant>>, at: usize, means: Meant)
    requires within { at < length memo.old.items }
    ensures noted { memo.new.items ≡ slice_set memo.old.items at (Some means) }
{
    memo[at] = Some(means);
}

/// Takes the last off a way.
fn last_of(way: &mut Vec<usize>) -> Option<usize>
    ensures last { MatchOption result (way.old.items ≡ []) (λ place. way.old.items ≡ way.new.items ++ place ∷ []) }
{
    way.pop()
}

/// Walks from a typedef to an end, to a typedef whose meaning is known, or to one that the walk has passed. On the way
/// a typedef counts as opaque, which it is where the walk comes back to it.
fn walk(
    alloc: Global,
    links: &[Link],
    memo: &mut Vec<Option<Meant>>,
    start: usize,
) -> Result<Walked, AllocError>
    requires memo { IsMemo links.now memo.old.items }
    ensures walked { IfOk result (λ w. IsWalked links.now start (reverse w.way.items) memo.new.items w.means) }
{
    let mut way = Vec::new(alloc);
    let mut at = start;
    'walk: loop {
        match item_at(links, at) {
            None => {
                let means = opaque_meaning();
                return Ok(Walked { way, means });
            }
            Some(link) => match note_at(memo, at) {
                Some(means) => return Ok(Walked { way, means }),
                None => {
                    way.push(at)?;
                    note(memo, at, opaque_meaning());
                    match link.to {
                        Target::End(kind) => {
                            let stars = Stars::Zero;
                            let means = Meant { kind, stars };
                            return Ok(Walked { way, means });
                        }
                        Target::Next(next) => at = next,
                    }
                }
            },
        }
    }
}

/// Goes back on a walk, and notes the meaning of each typedef on it. Answers that of the first.
fn walk_back(links: &[Link], memo: &mut Vec<Option<Meant>>, start: usize, walked: Walked) -> Meant
    requires walked { IsWalked links.now start (reverse walked.way.items) memo.old.items walked.means }
    ensures memo { IsMemo links.now memo.new.items }
    ensures means { IsMeaningAt links.now start result }
{
    let mut way = walked.way;
    let mut means = walked.means;
    'back: loop {
        match last_of(&mut way) {
            None => return means,
            Some(place) => match item_at(links, place) {
                None => return means,
                Some(link) => {
                    means = meant_after(link.stars, means);
                    note(memo, place, means);
                }
            },
        }
    }
}

/// The meaning of the typedef at a place, by the meanings that are known so far.
fn meaning(
    alloc: Global,
    links: &[Link],
    memo: &mut Vec<Option<Meant>>,
    start: usize,
) -> Result<Meant, AllocError>
    requires memo { IsMemo links.now memo.old.items }
    ensures memo { OnOk result (IsMemo links.now memo.new.items) }
    ensures means { IfOk result (λ m. IsMeaningAt links.now start m) }
{
    let walked = walk(alloc, links, memo, start)?;
    Ok(walk_back(links, memo, start, walked))
}

/// Nothing is known of so many typedefs.
fn empty_memo(alloc: Global, links: &[Link]) -> Result<Vec<Option<Meant>>, AllocError>
    ensures memo { IfOk result (λ memo. IsMemo links.now memo.items) }
{
    let mut memo = Vec::new(alloc);
    for _link in links {
        memo.push(None)?;
    }
    Ok(memo)
}

/// The meanings of typedefs.
pub fn meanings(alloc: Global, links: &[Link]) -> Result<Vec<Meant>, AllocError>
    ensures meanings { IfOk result (λ meant. AreMeanings links.now meant.items) }
{
    let mut memo = empty_memo(alloc, links)?;
    let mut meant = Vec::new(alloc);
    for place in 0..links.len() {
        meant.push(meaning(alloc, links, &mut memo, place)?)?;
    }
    Ok(meant)
}
