//! A block of bytes in raw memory. Only the six functions of this file read, write or free through a
//! pointer: `allocate`, `write_zeros` and `deallocate` for a block, `none` where there is none, and
//! `as_slice` and `as_mut_slice` for its bytes. What a struct here owns takes no space: the holder of
//! a block keeps its pointer and its length.

ghost use Rattle.std.specs.Prelude.{◌≡◌, ℕ, ◌^◌, ◌<◌, List, [], length, replicate, IfOk};
ghost use Rattle.std.specs.Borrow.{sem};
ghost use denote.RawPtr.{Ptr};
ghost use Rattle.gt_space.specs.Memory.{owned_bytes, lent_bytes, owned_room, owned_token};

use std::alloc::{AllocError, Allocator};
use std::marker::{Model, PhantomData};
use std::slice;

/// The bytes at a pointer, written. To drop it is to forget the bytes; the block itself is given back
/// by its `Deed`.
#[derive(Drop)]
pub(crate) struct Bytes {
    ghost at: { Ptr },
    ghost items: { List ℕ },
}

impl Model for Bytes {
    ghost also_owns = { λ b. owned_bytes b.at b.items };

    ghost also_shares = { λ b _ κ. lent_bytes b.at b.items κ };
}

/// Memory at a pointer that has not been written yet.
#[derive(Drop)]
pub(crate) struct Room {
    ghost at: { Ptr },
    ghost len: { ℕ },
}

impl Model for Room {
    ghost also_owns = { λ r. owned_room r.at r.len };
}

/// The right to give the block of `len` bytes at a pointer back to `alloc`. It cannot be dropped, so
/// whoever has one gives the block back or hands it on, and it cannot be copied.
pub(crate) struct Deed<A: Allocator> {
    mark: PhantomData<A>,
    ghost at: { Ptr },
    ghost len: { ℕ },
    ghost alloc: { A },
}

impl<A: Allocator> Model for Deed<A> {
    ghost also_owns = { λ d. owned_token (A.dealloc_token d.alloc) d.at d.len };
}

/// A block of `len` bytes, or out of memory.
pub(crate) fn allocate<A: Allocator>(
    alloc: &A,
    len: usize,
) -> Result<(*mut u8, Room, Deed<A>), AllocError>
    requires small { len < 2 ^ 63 }
    ensures ok { IfOk result (λ r. (r.1.at ≡ r.0) × (r.1.len ≡ len) × (r.2.at ≡ r.0) × (r.2.len ≡ len) × (r.2.alloc ≡ alloc.now)) }
{
    match alloc.allocate(len, 1) {
        Ok(ptr) => Ok((ptr, Room {}, Deed { mark: PhantomData })),
        Err(error) => Err(error),
    }
}

/// Gives a block back.
pub(crate) fn deallocate<A: Allocator>(
    alloc: &A,
    ptr: *mut u8,
    len: usize,
    bytes: Bytes,
    deed: Deed<A>,
)
    requires small { len < 2 ^ 63 }
    requires bytes { (bytes.at ≡ ptr) × (length bytes.items ≡ len) }
    requires deed { (deed.at ≡ ptr) × (deed.len ≡ len) × (deed.alloc ≡ alloc.now) }
{
    let Bytes {} = bytes;
    let Deed { mark: _ } = deed;
    unsafe { alloc.deallocate(ptr, len, 1) }
}

impl Room {
    /// Writes zero into each byte.
    pub(crate) fn write_zeros(self, ptr: *mut u8, len: usize) -> Bytes
        requires small { len < 2 ^ 63 }
        requires room { (self.at ≡ ptr) × (self.len ≡ len) }
        ensures { (result.at ≡ ptr) × (result.items ≡ replicate len 0) }
    {
        let Room {} = self;
        let mut i = 0;
        while i < len {
            unsafe { ptr.add(i).write(0) };
            i += 1;
        }
        Bytes {}
    }
}

impl Bytes {
    ghost use Rattle.gt_space.specs.MemoryLends.{lends_bytes};

    /// No bytes, and a pointer for them. It takes no memory: nothing is read through the pointer, which
    /// dangles.
    pub(crate) fn none() -> (*mut u8, Bytes)
        ensures { (result.1.at ≡ result.0) × (result.1.items ≡ []) }
    {
        let mut nothing: [u8; 0] = [];
        let ptr = &raw mut nothing as *mut u8;
        (ptr, Bytes {})
    }

    /// All the bytes, to be read.
    pub(crate) fn as_slice(&self, ptr: *mut u8, len: usize) -> &[u8]
        requires small { len < 2 ^ 63 }
        requires bytes { (self.now.at ≡ ptr) × (length self.now.items ≡ len) }
        ensures { result.now ≡ self.now.items }
    {
        unsafe { slice::from_raw_parts(ptr, len) }
    }

    /// All the bytes, to be written.
    pub(crate) fn as_mut_slice(&mut self, ptr: *mut u8, len: usize) -> &mut [u8]
        requires small { len < 2 ^ 63 }
        requires bytes { (self.old.at ≡ ptr) × (length self.old.items ≡ len) }
        ensures* writes_back { sem 𝓛 (lends_bytes self.entry result) }
        ensures value { result.now ≡ self.old.items }
    {
        unsafe { slice::from_raw_parts_mut(ptr, len) }
    }
}
