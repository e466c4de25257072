// Vectors that are used again.
ghost use Rattle.std.specs.Prelude.{◌≡◌, [], replicate, IfOk};

use std::alloc::AllocError;

// An empty vector with room for so many items: this one where it has room for them and for less than twice as many. Otherwise its memory is
// given back, and just as much is taken as is needed.
fn make_room<T: Drop>(items: Vec<T>, wanted: usize) -> Result<Vec<T>, AllocError>
    ensures { IfOk result (λ new. new.items ≡ []) }
{
    if wanted <= items.capacity() && items.capacity() / 2 < wanted {
        let mut items = items;
        items.clear();
        return Ok(items);
    }
    let alloc = *items.allocator();
    drop(items);
    Vec::with_capacity(alloc, wanted)
}

/// So many times a value, in the memory of a vector where this suffices and is less than twice what is needed.
pub fn refill<T: Copy + Drop>(items: Vec<T>, value: T, len: usize) -> Result<Vec<T>, AllocError>
    ensures { IfOk result (λ new. new.items ≡ replicate len value) }
{
    let mut items = make_room(items, len)?;
    items.resize(len, value)?;
    Ok(items)
}
