// A place in a value, from which steps lead to its parts.
ghost use Rattle.std.specs.Prelude.{◌≡◌, ◌≤◌, ◌<◌, ◌+◌, ◌*◌, ◌++◌, ◌∷◌, [], ℕ, List, Some, None, false, IfOk, MatchOption, slice_get};
ghost use Rattle.gt_types.specs.Settled.{Settled};
ghost use Rattle.gt_types.specs.declared.types.Ty.TheVariants.{Node};
ghost use Rattle.gt_layout.specs.Planes.{IsLaidOut};
ghost use Rattle.gt_layout.specs.Excess.{IsWithin};
ghost use Rattle.gt_space.specs.Range.{IsInside};
ghost use Rattle.gt_tree.specs.Trees.{Tree, Trees, tree_at, is_word};
ghost use Rattle.gt_value.specs.Bytes.{IsRoomFor, StandsFor, StandForStatics};
ghost use Rattle.gt_value.specs.Values.{tree_of};
ghost use Rattle.gt_value.specs.Reading.{Stands, EachStands};
ghost use Rattle.gt_value.specs.Places.{Part, IsPlaceOfPart};
ghost use Rattle.gt_value.specs.Cursors.{Frame, frame, element_part, IsAt, IsAtRoot, IsNoPart, IsSomewhere, LeadsNowhere, member_of, count_of, IsMoved, StepAnswers, ElementAnswers};

use crate::places::{Holder, Place, leaf_kind, read_count};
use crate::readers::worth_of;
use crate::reading::{read_length, read_type, size_of};
use crate::sources::{Around, Source, begin_at};
use crate::unions::{active_member, common_place};
use crate::values::Value;
use gt_layout::Layouts;
use gt_space::Space;
use gt_types::{Expr, MAX_DEPTH, Program, Ty, TypeId};
use std::alloc::{AllocError, Global};

// What stands around a part of a value: the structures in which it is, and what it lies in.
#[derive(Clone, Copy)]
pub struct Site {
    pub around: Around,
    pub holder: Holder,
}

/// A part of a value in the bytes of a space: its type, the bit at which it begins, counted from the begin of the value, and what
/// stands around it.
#[derive(Clone, Copy)]
pub struct Cursor<'a> {
    source: Source<'a>,
    site: Site,
    ty: &'a Ty,
    at: u32,
}

impl<'a> Cursor<'a> {
    /// A cursor at the value that stands at an address, of an element of a block with room for so many elements at its end.
    pub fn at_element(
        program: &'a Program,
        layouts: &'a Layouts,
        space: &'a Space,
        ty: &'a Ty,
        addr: u64,
        capacity: u32,
    ) -> Cursor<'a>
        requires settled { Settled program.now }
        requires laid { IsLaidOut program.now layouts.now }
        requires within { IsWithin program.now layouts.now }
        requires inside { IsRoomFor program.now layouts.now capacity ty.now space.now addr }
        requires stands { (value : Tree) × StandsFor program.now layouts.now capacity ty.now space.now addr value }
        ensures whole { (statics : Trees) (value : Tree) → StandsFor program.now layouts.now capacity ty.now space.now addr value → IsAt (frame program.now layouts.now space.now addr) result (element_part statics ty.now value) [] }
    {
        let source = Source::new(program, layouts, space, addr);
        let site = Site {
            around: Around::outside(),
            holder: Holder::Element,
        };
        Cursor {
            source,
            site,
            ty,
            at: 0,
        }
    }

    /// A cursor at the value of the root of this number, in the static record at the lowest address of the space. None where there is
    /// no such root.
    pub fn at_root(
        program: &'a Program,
        layouts: &'a Layouts,
        space: &'a Space,
        root: u32,
    ) -> Option<Cursor<'a>>
        requires settled { Settled program.now }
        requires laid { IsLaidOut program.now layouts.now }
        requires within { IsWithin program.now layouts.now }
        requires inside { IsInside space.now space.now.start layouts.now.statics.size }
        requires stands { (values : Trees) × StandForStatics program.now layouts.now space.now values }
        ensures root { MatchOption result (slice_get program.now.roots root ≡ None) (λ c. (values : Trees) → StandForStatics program.now layouts.now space.now values → IsAtRoot program.now layouts.now space.now values root c) }
    {
        let start = space.start();
        let source = Source::new(program, layouts, space, start);
        let held = program.roots.get(root as usize)?;
        let spot = layouts.statics.fields.get(root as usize)?;
        let at = begin_at(spot) as u32;
        let site = Site {
            around: Around::outside(),
            holder: Holder::Root(root),
        };
        Some(Cursor {
            source,
            site,
            ty: &held.ty,
            at,
        })
    }

    /// The type of the part.
    pub fn ty(&self) -> &'a Ty
        ensures { result.now ≡ self.now.ty.now }
    {
        self.ty
    }

    /// A cursor at the part at a place: a field of a struct, the active member of a union, or an element of an array. Where no member
    /// of a union is active, each place leads to its common structure. None where no part lies there.
    pub fn step(&self, place: u32) -> Option<Cursor<'a>>
        requires stands { IsSomewhere self.now }
        ensures part { MatchOption result ((at : Frame) (value : Part) (path : List ℕ) → IsAt at self.now value path → IsNoPart at value path place) (λ next. (at : Frame) (value : Part) (path : List ℕ) → IsAt at self.now value path → IsAt at next value (path ++ place ∷ [])) }
    {
        match self.ty {
            Ty::Node { id, desc } => self.inside(*id, desc, place),
            Ty::Arr { n, elem } => self.element(elem.get(), *n, place),
            Ty::Tail { len, elem } => {
                let n = read_length(&self.source, self.site.around, len);
                self.element(elem.get(), n, place)
            }
            Ty::Num(_) | Ty::Bits { .. } | Ty::Opaque { .. } => None,
            Ty::Str(_) | Ty::Ptr { .. } => None,
        }
    }

    // The same source, at a part elsewhere.
    fn cursor_at(&self, site: Site, ty: &'a Ty, at: u32) -> Cursor<'a>
        ensures { IsMoved result self.now.source site ty.now at }
    {
        Cursor {
            source: self.source,
            site,
            ty,
            at,
        }
    }

    // The element at a place.
    fn element(&self, elem: &'a Ty, n: u32, place: u32) -> Option<Cursor<'a>>
        requires stand { (values : Trees) × EachStands self.now.source self.now.site.around elem.now self.now.at n values }
        ensures { ElementAnswers self.now.source self.now.site elem.now self.now.at n place result }
    {
        if place >= n {
            return None;
        }
        let begin = self.at as u64 + place as u64 * (8 * size_of(elem, self.source.layouts));
        Some(self.cursor_at(self.site, elem, begin as u32))
    }

    // The part at a place of a structure.
    fn inside(&self, id: TypeId, desc: &Option<Expr>, place: u32) -> Option<Cursor<'a>>
        requires stands { (value : Tree) × Stands self.now.source self.now.site.around (Node id desc.now) self.now.at value }
        ensures { StepAnswers self.now.source self.now.site (Node id desc.now) self.now.at place result }
    {
        let (program, layouts) = (self.source.program, self.source.layouts);
        let structure = &program.structures.as_slice()[id.0 as usize];
        let inner = self.site.around.enter(id, self.at);
        let own = Site {
            around: inner,
            holder: Holder::Field {
                structure: id,
                place,
            },
        };
        let fields = structure.fields.as_slice();
        if !structure.is_union {
            let plane = &layouts.structures.as_slice()[id.0 as usize];
            let field = structure.fields.get(place as usize)?;
            let spot = plane.fields.get(place as usize)?;
            let begin = self.at as u64 + begin_at(spot);
            return Some(self.cursor_at(own, &field.ty, begin as u32));
        }
        let worth = worth_of(desc, &self.source, inner);
        if let Some(active) = active_member(program, layouts, id, structure, worth) {
            if active != place {
                return None;
            }
            return Some(self.cursor_at(own, &fields[active as usize].ty, self.at));
        }
        let member = common_place(program, layouts, id, structure)?;
        let bare = Site {
            around: inner.without_pointers(),
            holder: self.site.holder,
        };
        Some(self.cursor_at(bare, &fields[member as usize].ty, self.at))
    }

    /// A cursor at the part to which a path leads. None where no part lies there.
    pub fn follow(&self, path: &[u32]) -> Option<Cursor<'a>>
        requires stands { IsSomewhere self.now }
        ensures part { MatchOption result ((at : Frame) (value : Part) (front : List ℕ) → IsAt at self.now value front → LeadsNowhere at value (front ++ path.now)) (λ there. (at : Frame) (value : Part) (front : List ℕ) → IsAt at self.now value front → IsAt at there value (front ++ path.now)) }
    {
        let mut cursor = *self;
        for place in path {
            cursor = cursor.step(*place)?;
        }
        Some(cursor)
    }

    /// The place of the member of a union that is active; None where there is none, or where the part is no union.
    pub fn member(&self) -> Option<u32>
        requires stands { IsSomewhere self.now }
        ensures member { (at : Frame) (value : Part) (path : List ℕ) (there : IsAt at self.now value path) → result ≡ member_of there.p.tree }
    {
        match self.ty {
            Ty::Node { id, desc } => self.active(*id, desc),
            Ty::Num(_) | Ty::Bits { .. } | Ty::Opaque { .. } => None,
            Ty::Str(_) | Ty::Ptr { .. } => None,
            Ty::Arr { .. } | Ty::Tail { .. } => None,
        }
    }

    // The place of the active member, if a structure is a union.
    fn active(&self, id: TypeId, desc: &Option<Expr>) -> Option<u32>
        requires stands { (value : Tree) × Stands self.now.source self.now.site.around (Node id desc.now) self.now.at value }
        ensures { (value : Tree) → Stands self.now.source self.now.site.around (Node id desc.now) self.now.at value → result ≡ member_of value }
    {
        let (program, layouts) = (self.source.program, self.source.layouts);
        let structure = &program.structures.as_slice()[id.0 as usize];
        if !structure.is_union {
            return None;
        }
        let inner = self.site.around.enter(id, self.at);
        let worth = worth_of(desc, &self.source, inner);
        active_member(program, layouts, id, structure, worth)
    }

    /// How many elements an array has; 0 where the part is no array.
    pub fn count(&self) -> u32
        requires stands { IsSomewhere self.now }
        ensures count { (at : Frame) (value : Part) (path : List ℕ) (there : IsAt at self.now value path) → result ≡ count_of there.p.tree }
    {
        match self.ty {
            Ty::Arr { n, .. } => *n,
            Ty::Tail { len, .. } => read_length(&self.source, self.site.around, len),
            Ty::Num(_) | Ty::Bits { .. } | Ty::Opaque { .. } => 0,
            Ty::Str(_) | Ty::Ptr { .. } | Ty::Node { .. } => 0,
        }
    }

    /// Where the part lies, if it is a leaf. None where it is none, or is bytes that are never scanned and not eight.
    pub fn leaf(&self) -> Option<Place>
        requires stands { IsSomewhere self.now }
        ensures leaf { MatchOption result ((at : Frame) (value : Part) (path : List ℕ) (there : IsAt at self.now value path) → is_word there.p.tree ≡ false) (λ place. (at : Frame) (value : Part) (path : List ℕ) (there : IsAt at self.now value path) → IsPlaceOfPart at.program at.space at.addr there.p place) }
    {
        let kind = leaf_kind(self.ty)?;
        let length = read_count(&self.source, self.site.around, self.ty);
        let addr = self.source.space.start() + self.source.from;
        Some(Place {
            addr: addr + self.at as u64 / 8,
            bit: (self.at % 8) as u8,
            kind,
            active: self.site.around.whole,
            holder: self.site.holder,
            length,
        })
    }

    /// The value of the part. It fails only if memory runs out.
    pub fn read(&self, alloc: Global) -> Result<Value, AllocError>
        requires stands { IsSomewhere self.now }
        ensures value { IfOk result (λ v. (at : Frame) (value : Part) (path : List ℕ) (there : IsAt at self.now value path) → tree_of v ≡ there.p.tree) }
    {
        read_type(
            alloc,
            &self.source,
            self.site.around,
            self.ty,
            self.at,
            MAX_DEPTH + 1,
        )
    }
}
