//! The rows of the table, one line after another.
use crate::blocks::Blocks;
use crate::line::{Line, Refusal};
use crate::reading::Walks;
use gt_entries::Mark;
use sample_heap::SampleHeap;
use std::alloc::{AllocError, Global};
use std::io;

// How many pages a heap has.
const PAGES: u32 = 16384;

// How many bytes a pointer has.
const POINTER_BYTES: u64 = 8;

/// The row that is being read, and how the rows before it came out.
#[derive(Drop)]
pub struct Table {
    alloc: Global,
    comment: String,
    // The lines of the walks that all rows share.
    shared: Vec<String>,
    walks: Walks,
    heap: Option<SampleHeap>,
    blocks: Blocks,
    rows: u64,
    differ: u64,
}

// What a row wants of a call.
#[derive(Drop)]
struct Wanted {
    rounds: u32,
    least: u32,
    most: u32,
    // The blocks that are newly marked, by rising address.
    marked: Vec<u64>,
}

impl Table {
    pub fn new(alloc: Global) -> Table {
        Table {
            alloc,
            comment: String::new(alloc),
            shared: Vec::new(alloc),
            walks: Walks::new(alloc),
            heap: None,
            blocks: Blocks::new(alloc),
            rows: 0,
            differ: 0,
        }
    }

    /// Takes a line: a comment, with which a row begins, or what the row makes or calls. Before the first row stand the walks that
    /// all rows share.
    pub fn take(&mut self, rt: &impl Print, text: &str) -> io::Result<()> {
        if text.is_empty() || text.starts_with("##") {
            return Ok(());
        }
        let found = if text.starts_with("#") {
            self.begin(text)
        } else if self.rows == 0 {
            self.share(text)
        } else {
            self.read(text)
        };
        match found {
            Ok(true) => Ok(()),
            Ok(false) | Err(Refusal::Malformed) => self.tell(rt, text),
            Err(Refusal::Memory) => Ok(Err(AllocError)?),
        }
    }

    /// Says how many rows there were.
    pub fn finish(&self, rt: &impl Print) -> io::Result<()> {
        println!(rt; "{} rows, {} differ", self.rows, self.differ)
    }

    // Says that a line of the row comes out otherwise.
    fn tell(&mut self, rt: &impl Print, text: &str) -> io::Result<()> {
        self.differ = self.differ.saturating_add(1);
        println!(rt; "{}: {text}", self.comment.as_str())
    }

    // Keeps a line of the walks that all rows share.
    fn share(&mut self, text: &str) -> Result<bool, Refusal> {
        self.shared.push(String::from_str(self.alloc, text)?)?;
        Ok(true)
    }

    // Begins a row.
    fn begin(&mut self, comment: &str) -> Result<bool, Refusal> {
        self.comment = String::from_str(self.alloc, comment)?;
        self.rows = self.rows.saturating_add(1);
        self.blocks = Blocks::new(self.alloc);
        self.heap = None;
        self.walks = Walks::new(self.alloc);
        for text in &self.shared {
            if !self.walks.take(&mut Line::of(self.alloc, text.as_str())?)? {
                return Ok(false);
            }
        }
        Ok(true)
    }

    // Reads a line of a row. The answer is whether it comes out as wanted.
    fn read(&mut self, text: &str) -> Result<bool, Refusal> {
        let mut line = Line::of(self.alloc, text)?;
        if self.walks.take(&mut line)? {
            return Ok(true);
        }
        if self.heap.is_none() {
            self.heap = Some(SampleHeap::new(self.alloc, self.walks.tables()?, PAGES)?);
        }
        self.use_heap(&mut line)
    }

    // Reads such a line where the walks have ended.
    fn use_heap(&mut self, line: &mut Line) -> Result<bool, Refusal> {
        let Some(heap) = &mut self.heap else {
            return Ok(false);
        };
        if line.takes("make") {
            return make(self.alloc, heap, &mut self.blocks, line);
        }
        if line.takes("stale") {
            return make_stale(self.alloc, heap, &mut self.blocks, line);
        }
        change(self.alloc, heap, &self.blocks, line)
    }
}

// Makes blocks, and names them.
fn make(
    alloc: Global,
    heap: &mut SampleHeap,
    blocks: &mut Blocks,
    line: &mut Line,
) -> Result<bool, Refusal> {
    let name = line.next()?;
    let walk = line.number()?;
    let count = line.number()?;
    let times = if line.len() > 0 { line.number()? } else { 1 };
    let mut addrs = Vec::new(alloc);
    for _ in 0..times {
        match heap.make(walk, count)? {
            Some(addr) => addrs.push(addr)?,
            None => return Ok(false),
        }
    }
    blocks.add(name.as_str(), addrs)?;
    Ok(true)
}

// Makes a block that nothing is to reach, so that its bytes may be of any kind.
fn make_stale(
    alloc: Global,
    heap: &mut SampleHeap,
    blocks: &mut Blocks,
    line: &mut Line,
) -> Result<bool, Refusal> {
    let name = line.next()?;
    let Some(addr) = heap.make_stale(line.number()?)? else {
        return Ok(false);
    };
    let mut addrs = Vec::new(alloc);
    addrs.push(addr)?;
    blocks.add(name.as_str(), addrs)?;
    Ok(true)
}

// Writes pointers or a number, sets marks, or calls the marker.
fn change(
    alloc: Global,
    heap: &mut SampleHeap,
    blocks: &Blocks,
    line: &mut Line,
) -> Result<bool, Refusal> {
    if line.takes("link") {
        return link(heap, blocks, line);
    }
    if line.takes("put") {
        let at = blocks.named(line.next()?.as_str())?;
        let offset = line.number()?;
        return Ok(put(heap, &at, offset, line.number()? as u64));
    }
    if line.takes("mark") {
        return set_marks(heap, blocks, line, false);
    }
    if line.takes("wait") {
        return set_marks(heap, blocks, line, true);
    }
    call(alloc, heap, blocks, line)
}

// Writes a number at an offset of a block.
fn put(heap: &mut SampleHeap, at: &[u64], offset: u32, value: u64) -> bool {
    match at {
        [addr] => {
            heap.put(addr.saturating_add(offset as u64), value);
            true
        }
        _ => false,
    }
}

// Writes pointers to blocks, one after another from a place on, and says where the next would stand.
fn link_all(heap: &mut SampleHeap, from: u64, targets: &[u64]) -> u64 {
    let mut place = from;
    for target in targets {
        heap.put(place, *target);
        place = place.saturating_add(POINTER_BYTES);
    }
    place
}

// Writes pointers: from each of as many blocks to the one with the same number, or from one to all, one pointer after another.
fn link(heap: &mut SampleHeap, blocks: &Blocks, line: &mut Line) -> Result<bool, Refusal> {
    let from = blocks.named(line.next()?.as_str())?;
    let offset = line.number()? as u64;
    let to = blocks.named(line.next()?.as_str())?;
    if let [from] = from.as_slice() {
        let times = if line.takes("times") {
            line.number()?
        } else {
            1
        };
        let mut place = from.saturating_add(offset);
        for _ in 0..times {
            place = link_all(heap, place, &to);
        }
        return Ok(true);
    }
    for (from, target) in from.iter().zip(to.iter()) {
        heap.put(from.saturating_add(offset), *target);
    }
    Ok(from.len() == to.len())
}

// Marks blocks before the call.
fn set_marks(
    heap: &mut SampleHeap,
    blocks: &Blocks,
    line: &mut Line,
    waits: bool,
) -> Result<bool, Refusal> {
    for addr in &blocks.named(line.next()?.as_str())? {
        heap.mark(*addr, waits);
    }
    Ok(true)
}

// Calls the marker, and compares what it does with what is wanted.
fn call(
    alloc: Global,
    heap: &mut SampleHeap,
    blocks: &Blocks,
    line: &mut Line,
) -> Result<bool, Refusal> {
    let from = if line.takes("from") {
        blocks.named(line.next()?.as_str())?
    } else {
        line.expect("roots")?;
        Vec::new(alloc)
    };
    let wanted = read_wanted(alloc, blocks, line)?;
    let all = blocks.all()?;
    let before = marks(alloc, heap, &all)?;
    let rounds = if from.is_empty() {
        heap.mark_roots()
    } else {
        heap.mark_each(&from)
    };
    let Some(rounds) = rounds else {
        return Ok(false);
    };
    let within = wanted.least <= rounds && rounds <= wanted.most;
    Ok(within && rounds == wanted.rounds && are_marked(heap, &all, &before, &wanted.marked))
}

// What a row wants: `-> ROUNDS of LEAST to MOST marks BLOCKS..`.
fn read_wanted(alloc: Global, blocks: &Blocks, line: &mut Line) -> Result<Wanted, Refusal> {
    line.expect("->")?;
    let rounds = line.number()?;
    line.expect("of")?;
    let least = line.number()?;
    line.expect("to")?;
    let most = line.number()?;
    line.expect("marks")?;
    let mut marked = Vec::new(alloc);
    if !line.takes("nothing") {
        for _ in 0..line.len() {
            for addr in &blocks.named(line.next()?.as_str())? {
                marked.push(*addr)?;
            }
        }
    }
    marked.sort()?;
    Ok(Wanted {
        rounds,
        least,
        most,
        marked,
    })
}

// The marks of blocks.
fn marks(alloc: Global, heap: &SampleHeap, addrs: &[u64]) -> Result<Vec<Option<Mark>>, AllocError> {
    let mut marks = Vec::new(alloc);
    for addr in addrs {
        marks.push(heap.marked_as(*addr))?;
    }
    Ok(marks)
}

// Whether exactly these blocks are newly marked and walked, and the marks before stand.
fn are_marked(heap: &SampleHeap, addrs: &[u64], before: &[Option<Mark>], newly: &[u64]) -> bool {
    addrs.iter().zip(before.iter()).all(|(addr, before)| {
        let now = heap.marked_as(*addr);
        match before {
            Some(mark) => now == heap.own_mark(*addr) || now == Some(*mark),
            None if newly.binary_search(addr).is_ok() => now == heap.own_mark(*addr),
            None => now.is_none(),
        }
    })
}
