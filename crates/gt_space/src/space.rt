//! A space, and the calls that read and write it.

ghost use Rattle.std.specs.Prelude.{◌≡◌, ◌≤◌, ◌∷◌, [], length, replicate, OnOk, OnErr};
ghost use Rattle.gt_space.specs.Range.{IsInside, IsSpace, IsSized, KeepsAddresses, bytes_at, with_bytes, empty_range, fresh_range};
ghost use Rattle.gt_space.specs.Numbers.{u8_at, u16_at, u32_at, u64_at, with_u8, with_u16, with_u32, with_u64};

use crate::memory::{Bytes, Deed, allocate, deallocate};
use crate::{HEAP_START, MAX_PAGES, MAX_STATICS, MIN_PAGES, PAGE_BYTES};
use std::alloc::{AllocError, Global};
use std::marker::Model;

/// Bytes at addresses: the one at `start` is the first of `bytes`. They lie in one block, which is
/// given back at the end.
pub struct Space {
    start: u64,
    ptr: *mut u8,
    len: usize,
    bytes: Bytes,
    // The right to give the block back. A space with no bytes has none.
    deed: Option<Deed<Global>>,
    alloc: Global,
}

impl Model for Space {
    ghost use Rattle.std.specs.Prelude.{◌≡◌, length, IfSome};
    ghost use Rattle.gt_space.specs.Range.{Range, range_code, IsSpace};

    ghost Value = { Range };

    ghost coded = { range_code };

    ghost view = { λ s. record { start = s.start; bytes = s.bytes.items } };

    ghost invariant = { λ s. IsSpace (record { start = s.start; bytes = s.bytes.items })
        × (s.bytes.at ≡ s.ptr) × (length s.bytes.items ≡ s.len)
        × IfSome s.deed (λ d. (d.at ≡ s.ptr) × (d.len ≡ s.len) × (d.alloc ≡ s.alloc)) };
}

impl Drop for Space {
    fn drop(self) {
        let Space {
            start: _,
            ptr,
            len,
            bytes,
            deed,
            alloc,
        } = self;
        if let Some(deed) = deed {
            deallocate(&alloc, ptr, len, bytes, deed);
        }
    }
}

impl Space {
    /// A space with no bytes. It takes no memory, and keeps the allocator for later.
    pub fn empty(alloc: Global) -> Space
        ensures { result ≡ empty_range }
    {
        let (ptr, bytes) = Bytes::none();
        Space {
            start: HEAP_START,
            ptr,
            len: 0,
            bytes,
            deed: None,
            alloc,
        }
    }

    /// The lowest address.
    pub fn start(&self) -> u64
        ensures start { result ≡ self.now.start }

        // What holds of each space.
        ensures every_space { IsSpace self.now }
    {
        self.start
    }

    /// The number of bytes.
    pub fn len(&self) -> u64
        ensures { result ≡ length self.now.bytes }
    {
        self.len as u64
    }

    /// Makes it `pages` pages from `HEAP_START` and the whole pages below that hold `statics` bytes,
    /// all zero. Where memory is wanted, the space is as before.
    pub fn resize_fresh(&mut self, pages: u32, statics: u32) -> Result<(), AllocError>
        requires enough_pages { MIN_PAGES ≤ pages }
        requires not_too_many_pages { pages ≤ MAX_PAGES }
        requires statics_fit { statics ≤ MAX_STATICS }
        ensures ok { OnOk result (self.new ≡ fresh_range pages statics) }
        ensures sized { OnOk result (IsSized self.new pages statics) }
        ensures err { OnErr result (self.new ≡ self.old) }
    {
        let below = (statics as u64).div_ceil(PAGE_BYTES) * PAGE_BYTES;
        let len = below + pages as u64 * PAGE_BYTES;
        let (ptr, room, deed) = allocate(&self.alloc, len as usize)?;
        let bytes = room.write_zeros(ptr, len as usize);
        *self = Space {
            start: HEAP_START - below,
            ptr,
            len: len as usize,
            bytes,
            deed: Some(deed),
            alloc: self.alloc,
        };
        Ok(())
    }

    /// The byte at the address.
    pub fn read_u8(&self, addr: u64) -> u8
        requires { IsInside self.now addr 1 }
        ensures { result ≡ u8_at self.now addr }
    {
        self.bytes.as_slice(self.ptr, self.len)[(addr - self.start) as usize]
    }

    /// The number in the two bytes at the address, the low byte first.
    #[tactic(auto, unfolding(crate::specs::Numbers::u16_at))]
    pub fn read_u16(&self, addr: u64) -> u16
        requires { IsInside self.now addr 2 }
        ensures { result ≡ u16_at self.now addr }
    {
        u16::from_le_bytes(*self.array_at::<2>(addr))
    }

    /// The number in the four bytes at the address, the low byte first.
    #[tactic(auto, unfolding(crate::specs::Numbers::u32_at))]
    pub fn read_u32(&self, addr: u64) -> u32
        requires { IsInside self.now addr 4 }
        ensures { result ≡ u32_at self.now addr }
    {
        u32::from_le_bytes(*self.array_at::<4>(addr))
    }

    /// The number in the eight bytes at the address, the low byte first.
    #[tactic(auto, unfolding(crate::specs::Numbers::u64_at))]
    pub fn read_u64(&self, addr: u64) -> u64
        requires { IsInside self.now addr 8 }
        ensures { result ≡ u64_at self.now addr }
    {
        u64::from_le_bytes(*self.array_at::<8>(addr))
    }

    // The `N` bytes at the address.
    fn array_at<const N: usize>(&self, addr: u64) -> &[u8; N]
        requires { IsInside self.now addr N }
        ensures { result.now ≡ bytes_at self.now addr N }
    {
        let at = (addr - self.start) as usize;
        let bytes = &self.bytes.as_slice(self.ptr, self.len)[at..at + N];
        match bytes.as_array::<N>() {
            Some(array) => array,
            None => unreachable!(),
        }
    }

    /// Writes the byte at the address.
    pub fn write_u8(&mut self, addr: u64, v: u8)
        requires { IsInside self.old addr 1 }
        ensures bytes { self.new ≡ with_u8 self.old addr v }
        ensures addresses { KeepsAddresses self.old self.new }
    {
        self.copy_in(addr, &[v]);
    }

    /// Writes the number into the two bytes at the address, the low byte first.
    pub fn write_u16(&mut self, addr: u64, v: u16)
        requires { IsInside self.old addr 2 }
        ensures bytes { self.new ≡ with_u16 self.old addr v }
        ensures addresses { KeepsAddresses self.old self.new }
    {
        self.copy_in(addr, &v.to_le_bytes());
    }

    /// Writes the number into the four bytes at the address, the low byte first.
    pub fn write_u32(&mut self, addr: u64, v: u32)
        requires { IsInside self.old addr 4 }
        ensures bytes { self.new ≡ with_u32 self.old addr v }
        ensures addresses { KeepsAddresses self.old self.new }
    {
        self.copy_in(addr, &v.to_le_bytes());
    }

    /// Writes the number into the eight bytes at the address, the low byte first.
    pub fn write_u64(&mut self, addr: u64, v: u64)
        requires { IsInside self.old addr 8 }
        ensures bytes { self.new ≡ with_u64 self.old addr v }
        ensures addresses { KeepsAddresses self.old self.new }
    {
        self.copy_in(addr, &v.to_le_bytes());
    }

    /// Writes `v` into each of the `len` bytes at the address.
    pub fn fill(&mut self, addr: u64, len: u64, v: u8)
        requires { IsInside self.old addr len }
        ensures bytes { self.new ≡ with_bytes self.old addr (replicate len v) }
        ensures addresses { KeepsAddresses self.old self.new }
    {
        let at = (addr - self.start) as usize;
        self.bytes.as_mut_slice(self.ptr, self.len)[at..at + len as usize].fill(v);
    }

    /// Writes the bytes at the address.
    pub fn copy_in(&mut self, addr: u64, bytes: &[u8])
        requires { IsInside self.old addr (length bytes.now) }
        ensures bytes { self.new ≡ with_bytes self.old addr bytes.now }
        ensures addresses { KeepsAddresses self.old self.new }
    {
        let at = (addr - self.start) as usize;
        self.bytes.as_mut_slice(self.ptr, self.len)[at..at + bytes.len()].copy_from_slice(bytes);
    }

    /// Reads as many bytes at the address as `bytes` has.
    pub fn copy_out(&self, addr: u64, bytes: &mut [u8])
        requires { IsInside self.now addr (length bytes.old) }
        ensures { bytes.new ≡ bytes_at self.now addr (length bytes.old) }
    {
        let at = (addr - self.start) as usize;
        bytes.copy_from_slice(&self.bytes.as_slice(self.ptr, self.len)[at..at + bytes.len()]);
    }

    /// Writes the `len` bytes at `from`, as they are before the call, at `to`. The two ranges may
    /// overlap.
    pub fn move_within(&mut self, from: u64, to: u64, len: u64)
        requires source { IsInside self.old from len }
        requires target { IsInside self.old to len }
        ensures bytes { self.new ≡ with_bytes self.old to (bytes_at self.old from len) }
        ensures addresses { KeepsAddresses self.old self.new }
    {
        let at = (from - self.start) as usize;
        let dest = (to - self.start) as usize;
        self.bytes
            .as_mut_slice(self.ptr, self.len)
            .copy_within(at..at + len as usize, dest);
    }
}
