// The places of a graph that are reached from some. What was seen is followed, one place after another, from a list of work.
ghost use Rattle.std.specs.Prelude.{◌≡◌, ◌++◌, ◌∷◌, [], false, replicate, IfOk, OnOk, MatchOption, length};
ghost use Rattle.gt_shapes.specs.Graphs.{AreReached, edges_at, with_place, with_places};
ghost use Rattle.gt_shapes.specs.Searches.{seen_by};

use gt_types::List;
use std::alloc::{AllocError, Global};

// Which places were seen, and which of them are to be followed.
#[derive(Drop)]
struct Search {
    seen: Vec<bool>,
    waiting: Vec<usize>,
}

/// The edges of a place; none after the last place.
pub fn edges_at(graph: &[List<usize>], place: usize) -> &[usize]
    ensures same { result.now ≡ edges_at graph.now place }
{
    match graph.get(place) {
        None => &[],
        Some(edges) => edges.as_slice(),
    }
}

impl Search {
    fn new(alloc: Global, places: usize) -> Result<Search, AllocError>
        ensures seen { IfOk result (λ s. s.seen.items ≡ replicate places false) }
        ensures waiting { IfOk result (λ s. s.waiting.items ≡ []) }
    {
        Ok(Search {
            seen: vec![in alloc; false; places]?,
            waiting: Vec::new(alloc),
        })
    }

    fn find(&mut self, place: usize) -> Result<(), AllocError>
        ensures found { OnOk result (seen_by self.new ≡ with_place place (seen_by self.old)) }
    {
        if let Some(false) = self.seen.get(place) {
            self.seen[place] = true;
            self.waiting.push(place)?;
        }
        Ok(())
    }

    fn find_all(&mut self, places: &[usize]) -> Result<(), AllocError>
        ensures found { OnOk result (seen_by self.new ≡ with_places places.now (seen_by self.old)) }
    {
        for place in places {
            self.find(*place)?;
        }
        Ok(())
    }

    fn next(&mut self) -> Option<usize>
        ensures next { MatchOption result (self.old.waiting.items ≡ []) (λ place. self.old.waiting.items ≡ self.new.waiting.items ++ place ∷ []) }
        ensures seen { self.new.seen.items ≡ self.old.seen.items }
    {
        self.waiting.pop()
    }
}

/// For each place of a graph whether it is reached from the first ones along edges.
pub fn reach(alloc: Global, graph: &[List<usize>], first: &[usize]) -> Result<Vec<bool>, AllocError>
    ensures reached { IfOk result (λ flags. AreReached graph.now first.now flags.items) }
{
    let mut search = Search::new(alloc, graph.len())?;
    search.find_all(first)?;
    'search: loop {
        match search.next() {
            None => return Ok(search.seen),
            Some(place) => search.find_all(edges_at(graph, place))?,
        }
    }
}
