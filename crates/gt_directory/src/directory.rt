// The directory: a shelf for each page, with one thing for each block that may start in the page.
ghost use Rattle.std.specs.Prelude.{◌≡◌, ◌≢◌, ◌≤◌, ◌<◌, ◌+◌, IfOk, OnOk, OnErr, ℕ, [], length, replicate, slice_set};
ghost use Rattle.gt_directory.specs.Directories.{IsBlock, IsReady, Learns, fitting, known_at, page_of, place_of, places_of};
ghost use Rattle.gt_space.specs.declared.TheConstants.{HEAP_START};

use gt_space::{HEAP_START, PAGE_BYTES};
use std::alloc::{AllocError, Global};
use std::marker::Model;
use std::mem;

/// The most blocks that may start in a page, and one.
const SPARES: u32 = 513;

/// Things that are known of blocks, each found in constant time by the address and the size (in bytes) of its block.
#[derive(Drop)]
pub struct Directory<T> {
    alloc: Global,
    // For each page its shelf.
    shelves: Vec<Shelf<T>>,
    // For each number of places a shelf for a page to come, or none.
    spares: Vec<Shelf<T>>,
}

// The things of the blocks that start in one page, in order.
#[derive(Drop)]
struct Shelf<T> {
    things: Vec<T>,
}

impl<T> Model for Shelf<T> {
    ghost use Rattle.std.specs.Prelude.{List};

    ghost Value = { List T };

    ghost view = { λ s. s.things.items };
}

impl<T> Model for Directory<T> {
    ghost use Rattle.std.specs.Prelude.{◌≡◌, length};
    ghost use Rattle.gt_directory.specs.Directories.{Contents};

    ghost Value = { Contents T };

    ghost view = { λ d. record { shelves = d.shelves.items; spares = d.spares.items } };

    ghost invariant = { λ d. length d.spares.items ≡ 513 };
}

impl<T> Shelf<T> {
    // How many places it has.
    fn len(&self) -> usize
        ensures { result ≡ length self.now }
    {
        self.things.len()
    }
}

// How many blocks of a size may start in a page.
fn places_of(size: u32) -> usize
    requires { 8 ≤ size }
    ensures { result ≡ places_of size }
{
    ((PAGE_BYTES as u32 - 1) / size) as usize + 1
}

// The page in which an address lies.
fn page_of(addr: u64) -> usize
    requires { HEAP_START ≤ addr }
    ensures { result ≡ page_of addr }
{
    ((addr - HEAP_START) / PAGE_BYTES) as usize
}

// Where a block of a size stands among those that start in its page.
fn place_of(addr: u64, size: u32) -> usize
    requires above { HEAP_START ≤ addr }
    requires size { 8 ≤ size }
    ensures { result ≡ place_of addr size }
{
    let offset = ((addr - HEAP_START) % PAGE_BYTES) as u32;
    (offset / size) as usize
}

// So many shelves without a place.
fn empty_shelves<T: Drop>(alloc: Global, count: u32) -> Result<Vec<Shelf<T>>, AllocError>
    ensures { IfOk result (λ made. made.items ≡ replicate count []) }
{
    let mut shelves = Vec::new(alloc);
    for _i in 0..count {
        shelves.push(Shelf {
            things: Vec::new(alloc),
        })?;
    }
    Ok(shelves)
}

// Puts a thing at a place of a shelf, which is changed for a spare one where it has not so many places.
fn put_on<T: Copy + Drop>(
    shelf: &mut Shelf<T>,
    spare: &mut Shelf<T>,
    places: usize,
    place: usize,
    thing: T,
)
    requires low { place < places }
    requires spare { length spare.old ≡ places }
    ensures { shelf.new ≡ slice_set (fitting places shelf.old spare.old) place thing }
{
    if shelf.len() != places {
        mem::swap(shelf, spare);
    }
    shelf.things[place] = thing;
}

impl<T: Copy + Drop> Directory<T> {
    /// A directory for so many pages, in which nothing is known of any block.
    pub fn new(alloc: Global, pages: u32) -> Result<Directory<T>, AllocError>
        ensures empty { IfOk result (λ d. d.shelves ≡ replicate pages []) }
    {
        Ok(Directory {
            alloc,
            shelves: empty_shelves(alloc, pages)?,
            spares: empty_shelves(alloc, SPARES)?,
        })
    }

    /// What is known of the block of a size (in bytes) at an address.
    pub fn get(&self, addr: u64, size: u32) -> Option<T>
        requires block { IsBlock (length self.now.shelves) addr size }
        ensures known { result ≡ known_at self.now addr size }
    {
        let shelf = self.shelves.get(page_of(addr))?;
        if shelf.len() != places_of(size) {
            return None;
        }
        shelf.things.get(place_of(addr, size)).copied()
    }

    /// Makes room, so that something can be put for a block of this size (in bytes), wherever it will lie.
    pub fn reserve(&mut self, size: u32, thing: T) -> Result<(), AllocError>
        requires size { 8 ≤ size }
        ensures ready { OnOk result (IsReady self.new size) }
        ensures shelves { self.new.shelves ≡ self.old.shelves }
        ensures unchanged { OnErr result (self.new ≡ self.old) }
    {
        let places = places_of(size);
        if self.spares[places].len() != places {
            self.spares[places] = Shelf {
                things: vec![in self.alloc; thing; places]?,
            };
        }
        Ok(())
    }

    /// From now on this is known of the block of a size (in bytes) at an address. Of blocks of other sizes that start in the same page
    /// nothing may be known afterwards. It takes no memory.
    pub fn put(&mut self, addr: u64, size: u32, thing: T)
        requires block { IsBlock (length self.old.shelves) addr size }
        requires ready { IsReady self.old size }
        ensures learns { Learns self.old addr size thing self.new }
        ensures pages { length self.new.shelves ≡ length self.old.shelves }
    {
        let page = page_of(addr);
        let places = places_of(size);
        let place = place_of(addr, size);
        put_on(
            &mut self.shelves[page],
            &mut self.spares[places],
            places,
            place,
            thing,
        );
    }
}
