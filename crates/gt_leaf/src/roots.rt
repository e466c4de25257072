// The roots that expressions name.
ghost use Rattle.gt_leaf.specs.Collecting.{with_expr, with_option, with_kind, with_type, with_fields, with_structure, with_structures, with_roots, roots_of_all};
ghost use Rattle.std.specs.Prelude.{◌≡◌, OnOk};

use crate::places::PlaceSet;
use gt_types::{Expr, Field, Program, PtrKind, Root, Structure, Ty};
use std::alloc::AllocError;

impl PlaceSet {
    /// Adds the roots that the expressions of a program name. Its time is linear in the program's size. Its only error is out of memory.
    pub fn add_named(&mut self, program: &Program) -> Result<(), AllocError>
        ensures added { OnOk result (self.new ≡ roots_of_all program.now self.old) }
    {
        self.add_in_structures(program.structures.as_slice())?;
        self.add_in_roots(program.roots.as_slice())
    }

    fn add_in_structures(&mut self, structures: &[Structure]) -> Result<(), AllocError>
        ensures added { OnOk result (self.new ≡ with_structures self.old structures.now) }
    {
        for s in structures {
            self.add_in_structure(s)?;
        }
        Ok(())
    }

    fn add_in_structure(&mut self, s: &Structure) -> Result<(), AllocError>
        ensures added { OnOk result (self.new ≡ with_structure self.old s.now) }
    {
        self.add_in_fields(s.fields.as_slice())?;
        self.add_in_option(&s.desc)
    }

    fn add_in_fields(&mut self, fields: &[Field]) -> Result<(), AllocError>
        ensures added { OnOk result (self.new ≡ with_fields self.old fields.now) }
    {
        for f in fields {
            self.add_in_type(&f.ty)?;
        }
        Ok(())
    }

    fn add_in_roots(&mut self, roots: &[Root]) -> Result<(), AllocError>
        ensures added { OnOk result (self.new ≡ with_roots self.old roots.now) }
    {
        for r in roots {
            self.add_in_type(&r.ty)?;
        }
        Ok(())
    }

    // The lengths in a type, and the `desc` of a union.
    fn add_in_type(&mut self, ty: &Ty) -> Result<(), AllocError>
        ensures added { OnOk result (self.new ≡ with_type ty.now self.old) }
    {
        match ty {
            Ty::Str(length) => self.add_in_option(length),
            Ty::Ptr { kind, .. } => self.add_in_kind(kind),
            Ty::Node { desc, .. } => self.add_in_option(desc),
            Ty::Arr { elem, .. } => self.add_in_type(elem.get()),
            Ty::Tail { len, elem } => {
                self.add_in_expr(len)?;
                self.add_in_type(elem.get())
            }
            Ty::Num(_) | Ty::Bits { .. } | Ty::Opaque { .. } => Ok(()),
        }
    }

    fn add_in_kind(&mut self, kind: &PtrKind) -> Result<(), AllocError>
        ensures added { OnOk result (self.new ≡ with_kind kind.now self.old) }
    {
        match kind {
            PtrKind::Length(length) => self.add_in_expr(length),
            PtrKind::Plain | PtrKind::Atomic | PtrKind::Undef => Ok(()),
        }
    }

    fn add_in_option(&mut self, e: &Option<Expr>) -> Result<(), AllocError>
        ensures added { OnOk result (self.new ≡ with_option e.now self.old) }
    {
        match e {
            Some(e) => self.add_in_expr(e),
            None => Ok(()),
        }
    }

    fn add_in_expr(&mut self, e: &Expr) -> Result<(), AllocError>
        ensures added { OnOk result (self.new ≡ with_expr e.now self.old) }
    {
        match e {
            Expr::Int(_) | Expr::Path { .. } => Ok(()),
            Expr::Root(place) => self.add(*place),
            Expr::One { a, .. } => self.add_in_expr(a.get()),
            Expr::Two { a, b, .. } => {
                self.add_in_expr(a.get())?;
                self.add_in_expr(b.get())
            }
            Expr::Cond { test, yes, no } => {
                self.add_in_expr(test.get())?;
                self.add_in_expr(yes.get())?;
                self.add_in_expr(no.get())
            }
        }
    }
}
