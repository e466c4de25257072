//! The marker while it works: it takes the edges of one block after another.
ghost use Rattle.std.specs.Prelude.{◌≡◌, ◌⊎◌, ◌≤◌, ◌<◌, ◌-◌, ◌^◌, ℕ, List, [], Option, Some, None, false, is_some, length, option_map, IsTrue};
ghost use Rattle.gt_space.specs.Range.{Range};
ghost use Rattle.gt_pages.specs.Slots.{StartsSome};
ghost use Rattle.gt_walk.specs.declared.tables.Tables.{Tables};
ghost use Rattle.gt_walk.specs.Rows.{word_at};
ghost use Rattle.gt_mark.specs.Chains.{AreLinks};
ghost use Rattle.gt_mark.specs.Steps.{Task, Ends, Follows, Goes, Holds, Leaves, Lessens, PassesOver, ahead, begun_state, lost_in, one_of, place_of, postponed_pages, start_state, state_of};
ghost use Rattle.gt_mark.specs.Wide.{Wide};

use crate::chains::{Links, chain_place};
use crate::spans::{Pass, Span};
use crate::stack::{Block, Stack};
use arrayvec::ArrayVec;
use gt_pages::Pages;
use gt_space::Space;
use gt_walk::{EdgeSink, Tables, rows_of, visit_element, visit_with_rows, word_of};

/// Marks the blocks that edges name. A block that is newly marked comes onto the stack, or it is the next of a chain. Where the stack has
/// no room for it, its mark says that it is left to a pass: it lies ahead of the pass that runs, or in the span that the next one goes over.
#[derive(Drop)]
pub struct Marker<'a> {
    pages: &'a mut Pages,
    stack: Stack,
    // Where the blocks lie for which the stack had no room, and that are left to the next pass.
    lost: Option<Span>,
    // The pass that runs.
    pass: Option<Pass>,
    // The address of the chain pointer of the block in hand.
    chain: Option<u64>,
    // The block that this pointer names, where it was not marked.
    next: Option<Block>,
}

impl<'a> EdgeSink for Marker<'a> {
    ghost takes = { λ m e. StartsSome m.pages.now.slots e.target };

    ghost leaves = { Leaves };

    #[inline(always)]
    fn edge(&mut self, place: u64, target: u64, walk: u32, count: u32) {
        let block = Block {
            addr: target,
            walk,
            count,
        };
        if !self.pages.mark(target, walk, count) {
            return;
        }
        if self.next.is_none() && self.chain == Some(place) {
            self.next = Some(block);
            return;
        }
        let Ok(()) = self.stack.try_push(block) else {
            self.lose(target);
            return;
        };
    }
}

impl<'a> Marker<'a> {
    pub fn new(pages: &'a mut Pages) -> Marker<'a>
        ensures same_reference { result.pages.ghost_name ≡ pages.entry.ghost_name }
        ensures state { state_of result ≡ start_state pages.old }
    {
        Marker {
            pages,
            stack: ArrayVec::new(),
            lost: None,
            pass: None,
            chain: None,
            next: None,
        }
    }

    // A block for which the stack has no room is left to the pass that runs, where that has not come to it, else to the next one.
    #[cold]
    #[inline(never)]
    fn lose(&mut self, addr: u64)
        requires start { StartsSome self.old.pages.now.slots addr }
        ensures same_reference { self.new.pages.ghost_name ≡ self.old.pages.ghost_name }
        ensures lost { state_of self.new ≡ lost_in self.old.pass (record (state_of self.old) { pages = postponed_pages self.old.pages.now addr }) addr }
    {
        self.pages.postpone(addr);
        match self.pass {
            Some(pass) if pass.at < addr => {
                self.pass = Some(Pass {
                    at: pass.at,
                    last: pass.last.max(addr),
                });
            }
            _ => self.lost = Some(Span::with(self.lost, addr)),
        }
    }

    /// Takes the edges of a block, and says which block its chain pointer names, where it was not marked.
    #[inline(always)]
    fn walk_block(&mut self, tables: &Tables, space: &Space, block: Block) -> Option<Block>
        requires ready { (t : Task tables.now space.now) × (begun : List ℕ) × Holds t begun (Some block) (state_of self.old) }
        ensures same_reference { self.new.pages.ghost_name ≡ self.old.pages.ghost_name }
        ensures goes { (t : Task tables.now space.now) (begun : List ℕ) → Holds t begun (Some block) (state_of self.old) → Goes t begun result (state_of self.old) (state_of self.new) }
        ensures wide { (t : Task tables.now space.now) (begun : List ℕ) → Holds t begun (Some block) (state_of self.old) → Wide t (state_of self.old) (Some block) → Wide t (state_of self.new) result }
    {
        let rows = rows_of(tables, block.walk);
        self.chain = chain_place(rows, block);
        visit_with_rows(tables, rows, block.count, space, block.addr, self);
        self.chain = None;
        self.next.take()
    }

    /// The same for a block that begins after the space.
    #[cold]
    #[inline(never)]
    fn walk_outside(&mut self, tables: &Tables, space: &Space, block: Block) -> Option<Block>
        requires ready { (t : Task tables.now space.now) × (begun : List ℕ) × Holds t begun (Some block) (state_of self.old) }
        ensures same_reference { self.new.pages.ghost_name ≡ self.old.pages.ghost_name }
        ensures goes { (t : Task tables.now space.now) (begun : List ℕ) → Holds t begun (Some block) (state_of self.old) → Goes t begun result (state_of self.old) (state_of self.new) }
        ensures wide { (t : Task tables.now space.now) (begun : List ℕ) → Holds t begun (Some block) (state_of self.old) → Wide t (state_of self.old) (Some block) → Wide t (state_of self.new) result }
    {
        self.walk_block(tables, space, block)
    }

    // Marks the block that a chain pointer names, and says where it starts, where it was not marked.
    #[inline(always)]
    fn follow(&mut self, space: &Space, links: Links<'_>, place: u64) -> Option<u64>
        requires words { links.words ≡ length space.now.bytes - 7 }
        requires near { place < 2 ^ 63 }
        requires starts { (target : ℕ) → word_at space.now place ≡ Some target → 0 < target → StartsSome self.old.pages.now.slots target }
        ensures same_reference { self.new.pages.ghost_name ≡ self.old.pages.ghost_name }
        ensures follows { Follows space.now place links.entry.walk (state_of self.old) result (state_of self.new) }
    {
        let target = word_of(space, links.words, place)?;
        if target == 0 {
            return None;
        }
        if !self.pages.mark(target, links.walk, 1) {
            return None;
        }
        Some(target)
    }

    /// The same for a block at an address, of one element that has a chain pointer. What this names is marked first, and held until the other rows
    /// are walked.
    #[inline(always)]
    fn walk_link(
        &mut self,
        tables: &Tables,
        space: &Space,
        links: Links<'_>,
        addr: u64,
    ) -> Option<u64>
        requires ready { (t : Task tables.now space.now) × (begun : List ℕ) × Holds t begun (Some (one_of links.walk addr)) (state_of self.old) }
        requires links { AreLinks tables.now space.now (one_of links.walk addr) links }
        requires inside { addr < links.end }
        ensures same_reference { self.new.pages.ghost_name ≡ self.old.pages.ghost_name }
        ensures goes { (t : Task tables.now space.now) (begun : List ℕ) → Holds t begun (Some (one_of links.entry.walk addr)) (state_of self.old) → Goes t begun (option_map (one_of links.entry.walk) result) (state_of self.old) (state_of self.new) }
        ensures wide { (t : Task tables.now space.now) (begun : List ℕ) → Holds t begun (Some (one_of links.entry.walk addr)) (state_of self.old) → Wide t (state_of self.old) (Some (one_of links.entry.walk addr)) → Wide t (state_of self.new) (option_map (one_of links.entry.walk) result) }
    {
        let next = self.follow(space, links, addr + links.offset as u64);
        visit_element(tables, links.before, space, links.words, addr, self);
        visit_element(tables, links.after, space, links.words, addr, self);
        next
    }

    /// Walks such a block, and the blocks of its chain that were not marked. Says which comes after them.
    fn walk_links(
        &mut self,
        tables: &Tables,
        space: &Space,
        links: Links<'_>,
        block: Block,
    ) -> Option<Block>
        requires ready { (t : Task tables.now space.now) × (begun : List ℕ) × Holds t begun (Some block) (state_of self.old) }
        requires links { AreLinks tables.now space.now block links }
        ensures same_reference { self.new.pages.ghost_name ≡ self.old.pages.ghost_name }
        ensures goes { (t : Task tables.now space.now) (begun : List ℕ) → Holds t begun (Some block) (state_of self.old) → Goes t begun result (state_of self.old) (state_of self.new) }
        ensures wide { (t : Task tables.now space.now) (begun : List ℕ) → Holds t begun (Some block) (state_of self.old) → Wide t (state_of self.old) (Some block) → Wide t (state_of self.new) result }
    {
        let mut addr = block.addr;
        'links: loop {
            if addr >= links.end {
                let block = Block {
                    addr,
                    walk: links.walk,
                    count: 1,
                };
                return self.walk_outside(tables, space, block);
            }
            match self.walk_link(tables, space, links, addr) {
                None => return None,
                Some(next) => addr = next,
            }
        }
    }

    /// Walks a block, and where it has a chain pointer the blocks of its chain that are walked alike. Says which comes after them.
    #[inline(always)]
    fn walk_alike(&mut self, tables: &Tables, space: &Space, block: Block) -> Option<Block>
        requires ready { (t : Task tables.now space.now) × (begun : List ℕ) × Holds t begun (Some block) (state_of self.old) }
        ensures same_reference { self.new.pages.ghost_name ≡ self.old.pages.ghost_name }
        ensures goes { (t : Task tables.now space.now) (begun : List ℕ) → Holds t begun (Some block) (state_of self.old) → Goes t begun result (state_of self.old) (state_of self.new) }
        ensures wide { (t : Task tables.now space.now) (begun : List ℕ) → Holds t begun (Some block) (state_of self.old) → Wide t (state_of self.old) (Some block) → Wide t (state_of self.new) result }
    {
        match Links::of(tables, space, block) {
            None => self.walk_block(tables, space, block),
            Some(links) => self.walk_links(tables, space, links, block),
        }
    }

    /// Walks a block, and the blocks of its chain that were not marked.
    fn walk_chain(&mut self, tables: &Tables, space: &Space, block: Block)
        requires ready { (t : Task tables.now space.now) × (begun : List ℕ) × Holds t begun (Some block) (state_of self.old) }
        ensures same_reference { self.new.pages.ghost_name ≡ self.old.pages.ghost_name }
        ensures goes { (t : Task tables.now space.now) (begun : List ℕ) → Holds t begun (Some block) (state_of self.old) → Goes t begun None (state_of self.old) (state_of self.new) }
        ensures wide { (t : Task tables.now space.now) (begun : List ℕ) → Holds t begun (Some block) (state_of self.old) → Wide t (state_of self.old) (Some block) → Wide t (state_of self.new) None }
    {
        let mut block = block;
        'chain: loop {
            match self.walk_alike(tables, space, block) {
                None => return,
                Some(next) => block = next,
            }
        }
    }

    /// Walks the blocks on the stack, and those that come onto it.
    pub fn walk_stack(&mut self, tables: &Tables, space: &Space)
        requires ready { (t : Task tables.now space.now) × (begun : List ℕ) × Holds t begun None (state_of self.old) }
        ensures same_reference { self.new.pages.ghost_name ≡ self.old.pages.ghost_name }
        ensures goes { (t : Task tables.now space.now) (begun : List ℕ) → Holds t begun None (state_of self.old) → Goes t begun None (state_of self.old) (state_of self.new) }
        ensures wide { (t : Task tables.now space.now) (begun : List ℕ) → Holds t begun None (state_of self.old) → Wide t (state_of self.old) None → Wide t (state_of self.new) None }
        ensures empty { self.new.stack.items ≡ [] }
    {
        'stack: loop {
            match self.stack.pop() {
                None => return,
                Some(block) => self.walk_chain(tables, space, block),
            }
        }
    }

    // Begins a pass over the blocks that are left to it, and says whether there are any.
    fn begin_pass(&mut self) -> bool
        ensures same_reference { self.new.pages.ghost_name ≡ self.old.pages.ghost_name }
        ensures lost { result ≡ is_some self.old.lost }
        ensures begun { IsTrue result → state_of self.new ≡ begun_state (state_of self.old) }
        ensures unchanged { result ≡ false → state_of self.new ≡ state_of self.old }
    {
        match self.lost.take() {
            None => false,
            Some(span) => {
                self.pass = Some(Pass::over(span));
                true
            }
        }
    }

    // Moves the pass on to the next block that is left to it, and takes this block. Where there is none the pass is over.
    fn next_in_pass(&mut self) -> Option<Block>
        requires ready { (tables : Tables) × (space : Range) × (t : Task tables space) × (begun : List ℕ) × Holds t begun None (state_of self.old) }
        ensures same_reference { self.new.pages.ghost_name ≡ self.old.pages.ghost_name }
        ensures same { state_of self.new ≡ record (state_of self.old) { pages = self.new.pages.now; pass = self.new.pass } }
        ensures goes { (tables : Tables) (space : Range) (t : Task tables space) (begun : List ℕ) → Holds t begun None (state_of self.old) → Holds t begun result (state_of self.new) }
        ensures over { result ≡ None → self.new.pass ≡ None }
        ensures lessens { Lessens (state_of self.old) (state_of self.new) 0 }
        ensures less { IsTrue (is_some result) → ahead (state_of self.new) < ahead (state_of self.old) }
    {
        let pass = self.pass.take()?;
        if pass.last <= pass.at {
            return None;
        }
        let (addr, walk, count) = self.pages.next_pending(pass.at)?;
        self.pages.set_walked(addr);
        self.pass = Some(Pass {
            at: addr,
            last: pass.last,
        });
        Some(Block { addr, walk, count })
    }

    // Walks the blocks that the pass has still to come to, by rising address, and those that come onto the stack.
    fn run_pass(&mut self, tables: &Tables, space: &Space)
        requires ready { (t : Task tables.now space.now) × (begun : List ℕ) × Holds t begun None (state_of self.old) }
        requires empty { self.old.stack.items ≡ [] }
        ensures same_reference { self.new.pages.ghost_name ≡ self.old.pages.ghost_name }
        ensures goes { (t : Task tables.now space.now) (begun : List ℕ) → Holds t begun None (state_of self.old) → PassesOver t begun (state_of self.old) (state_of self.new) }
        ensures over { self.new.pass ≡ None }
        ensures empty { self.new.stack.items ≡ [] }
    {
        'blocks: loop {
            match self.next_in_pass() {
                None => return,
                Some(block) => {
                    self.walk_chain(tables, space, block);
                    self.walk_stack(tables, space);
                }
            }
        }
    }

    /// Passes over the blocks for which the stack had no room until none is left, and says how many rounds there were with the first.
    pub fn walk_rest(&mut self, tables: &Tables, space: &Space) -> u32
        requires ready { (t : Task tables.now space.now) × (begun : List ℕ) × Holds t begun None (state_of self.old) }
        requires idle { place_of (state_of self.old) ≡ None }
        requires empty { self.old.stack.items ≡ [] }
        ensures same_reference { self.new.pages.ghost_name ≡ self.old.pages.ghost_name }
        ensures ends { (t : Task tables.now space.now) (begun : List ℕ) → Holds t begun None (state_of self.old) → Ends t begun result (state_of self.old) (state_of self.new) }
        ensures at_least { 1 ≤ result }
        ensures idle { place_of (state_of self.new) ≡ None }
        ensures empty { self.new.stack.items ≡ [] }
        ensures room { self.new.lost ≡ None }
        ensures again { (state_of self.new ≡ state_of self.old) ⊎ (2 ≤ result) }
        ensures one { self.old.lost ≡ None → result ≡ 1 }
    {
        let mut rounds: u32 = 1;
        'rounds: loop {
            if !self.begin_pass() {
                return rounds;
            }
            self.run_pass(tables, space);
            rounds = rounds.saturating_add(1);
        }
    }
}
