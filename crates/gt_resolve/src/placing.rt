// Where a structure or a root stands whose type is too large.
ghost use Rattle.std.specs.Prelude.{◌≡◌, ◌≤◌, ◌||◌, true, false, length, filter_map, is_some, IsTrue, Some};
ghost use Rattle.gt_drafts.specs.FirstFaults.{IsFirst};
ghost use Rattle.gt_resolve.specs.Placings.{IsThere, chosen, fault_item, faults_from, item_or_rest, one_item, placed};

use crate::TYPE_TOO_LARGE;
use gt_drafts::earlier;
use gt_items::{Item, Items};
use gt_types::Fault;

fn fault_item(tags: bool, file: u32, item: &Item) -> Option<Fault>
    ensures fault { result ≡ fault_item tags file item.now }
{
    let number = TYPE_TOO_LARGE;
    let at = match (tags, item) {
        (true, Item::Structure(s)) => s.tag.at,
        (false, Item::Root(r)) => r.name.at,
        _ => return None,
    };
    Some(Fault { number, file, at })
}

fn one_item(fault: Option<Fault>, place: usize) -> Result<Fault, usize>
    ensures item { result ≡ one_item fault place }
{
    match fault {
        None => Err(place),
        Some(found) => {
            if place == 0 {
                return Ok(found);
            }
            Err(place - 1)
        }
    }
}

// The fault at a place among those of a file, or by how many places they are too few.
fn fault_in_items(tags: bool, file: u32, items: &[Item], place: usize) -> Result<Fault, usize>
    ensures item { result ≡ item_or_rest (filter_map (fault_item tags file) items.now) place }
{
    let mut rest = place;
    for item in items {
        match one_item(fault_item(tags, file, item), rest) {
            Ok(fault) => return Ok(fault),
            Err(less) => rest = less,
        }
    }
    Err(rest)
}

// The fault at a place among those of all files, or by how many places they are too few.
fn fault_in_files(tags: bool, files: &[Items], place: usize) -> Result<Fault, usize>
    requires files { length files.now ≤ 64 }
    ensures item { result ≡ item_or_rest (faults_from tags 1 files.now) place }
{
    let mut rest = place;
    for (at, items) in files.iter().enumerate() {
        match fault_in_items(tags, at as u32 + 1, items.items.as_slice(), rest) {
            Ok(fault) => return Ok(fault),
            Err(less) => rest = less,
        }
    }
    Err(rest)
}

fn chosen_fault(tags: bool, files: &[Items], place: Option<u32>) -> Option<Fault>
    requires files { length files.now ≤ 64 }
    ensures fault { result ≡ chosen (faults_from tags 1 files.now) place }
{
    match place {
        None => None,
        Some(place) => match fault_in_files(tags, files, place as usize) {
            Ok(fault) => Some(fault),
            Err(_) => None,
        },
    }
}

/// The fault 24 TypeTooLarge of a structure, by its place among those of all files, at its tag, or of a root, by its place among
/// those of all files, at its name: the one that stands earlier where both are given. At least one is given, and what is given is
/// there. It takes no memory.
pub fn place(files: &[Items], structure: Option<u32>, root: Option<u32>) -> Fault
    requires files { length files.now ≤ 64 }
    requires given { IsTrue (is_some structure || is_some root) }
    requires structure { IsThere (faults_from true 1 files.now) structure }
    requires root { IsThere (faults_from false 1 files.now) root }
    ensures earliest { IsFirst (placed files.now structure root) result }
{
    let of_structure = chosen_fault(true, files, structure);
    match chosen_fault(false, files, root) {
        None => first_of(of_structure),
        Some(fault) => earlier(of_structure, fault),
    }
}

fn first_of(fault: Option<Fault>) -> Fault
    requires given { IsTrue (is_some fault) }
    ensures same { fault ≡ Some result }
{
    match fault {
        None => unreachable!(),
        Some(fault) => fault,
    }
}
