// The words of a line, with where they stand in the script.
ghost use Rattle.std.specs.Prelude.{◌≡◌, ◌<◌, [], ◌∷◌, take, drop};
ghost use Rattle.std.specs.Str.{IsUtf8, IsCharBoundary};
ghost use Rattle.gt_split.specs.Texts.{following, before};

use crate::parts::{after_byte, before_byte};
use gt_types::Bytes;
use std::marker::Model;

/// A text of a script that contracts see as the list of its bytes, and the place in the script at which it is expected to begin.
/// The place only says where to look for it: nothing is promised of it.
#[derive(Drop)]
pub struct Slice<'a> {
    text: &'a str,
    place: usize,
}

impl<'a> Model for Slice<'a> {
    ghost use Rattle.std.specs.Prelude.{ℕ, List};

    ghost Value = { List ℕ };

    ghost view = { λ s. s.text.now };
}

impl<'a> Slice<'a> {
    /// The slice of a text that is expected at a place.
    #[inline(always)]
    pub fn of(text: &'a str, place: usize) -> Slice<'a>
        ensures { result ≡ text.now }
    {
        Slice { text, place }
    }

    /// The text.
    #[inline(always)]
    pub fn text(&self) -> &'a str
        ensures text { result.now ≡ self.now }
        ensures utf8 { IsUtf8 result.now }
    {
        self.text
    }

    /// Its bytes.
    #[inline(always)]
    pub fn bytes(&self) -> &'a [u8]
        ensures { result.now ≡ self.now }
    {
        self.text.as_bytes()
    }

    /// The place at which it is expected. Nothing is promised of it.
    #[inline(always)]
    pub fn place(&self) -> usize {
        self.place
    }

    /// What stands before and after a place between its characters.
    #[inline(always)]
    pub fn split_at(&self, at: usize) -> (Slice<'a>, Slice<'a>)
        requires boundary { IsCharBoundary self.now at }
        ensures front { result.0 ≡ take at self.now }
        ensures back { result.1 ≡ drop at self.now }
    {
        let (front, back) = self.text.split_at(at);
        (
            Slice::of(front, self.place),
            Slice::of(back, self.place.wrapping_add(at)),
        )
    }

    /// What stands after an ASCII byte, where the slice begins with it; else None.
    #[inline(always)]
    pub fn after(&self, byte: u8) -> Option<Slice<'a>>
        requires ascii { byte < 128 }
        ensures { result ≡ following (byte ∷ []) self.now }
    {
        match after_byte(self.text, byte) {
            Some(rest) => Some(Slice::of(rest, self.place.wrapping_add(1))),
            None => None,
        }
    }

    /// What stands before an ASCII byte, where the slice ends with it; else None.
    #[inline(always)]
    pub fn before(&self, byte: u8) -> Option<Slice<'a>>
        requires ascii { byte < 128 }
        ensures { result ≡ before (byte ∷ []) self.now }
    {
        match before_byte(self.text, byte) {
            Some(rest) => Some(Slice::of(rest, self.place)),
            None => None,
        }
    }
}

/// The text that a quoted word means, which contracts see as the list of its bytes, and the place in the script at which the text between
/// its quotes is expected to begin. Nothing is promised of the place.
#[derive(Drop)]
pub struct Quoted {
    bytes: Bytes,
    place: usize,
}

impl Model for Quoted {
    ghost use Rattle.std.specs.Prelude.{ℕ, List};
    ghost use Rattle.std.specs.Str.{IsUtf8};

    ghost Value = { List ℕ };

    ghost view = { λ q. q.bytes };

    ghost invariant = { λ q. IsUtf8 q.bytes };
}

impl Quoted {
    /// The quoted word that means UTF-8 bytes.
    pub fn of(bytes: Bytes, place: usize) -> Quoted
        requires utf8 { IsUtf8 bytes }
        ensures { result ≡ bytes }
    {
        Quoted { bytes, place }
    }

    /// The bytes that it means.
    pub fn bytes(&self) -> &Bytes
        ensures { result.now ≡ self.now }
    {
        &self.bytes
    }

    /// The text that it means.
    pub fn text(&self) -> &str
        ensures text { result.now ≡ self.now }
        ensures utf8 { IsUtf8 result.now }
    {
        // Its bytes are UTF-8.
        unsafe { str::from_utf8_unchecked(self.bytes.as_slice()) }
    }

    /// The place at which it is expected. Nothing is promised of it.
    #[inline(always)]
    pub fn place(&self) -> usize {
        self.place
    }
}
