// What the expressions of the options of a structure may read.
ghost use Rattle.std.specs.Prelude.{◌≡◌, All, IfOk};
ghost use Rattle.std.specs.Bool.{Decides};
ghost use Rattle.gt_types.specs.declared.expressions.Base.TheVariants.{Outer, Outermost as FromOutermost};
ghost use Rattle.gt_types.specs.Paths.{AreSteps, DescPathFitsBeside, IsFieldDescBeside, IsOptionBeside, LeadsToNumber, PathFitsBeside, Way, paths_of};
ghost use Rattle.gt_paths.specs.Indexes.{IsIndexOn};
ghost use Rattle.gt_paths.specs.Checks.{checked, inner_of};
ghost use Rattle.gt_paths.specs.Places.{PathAt};

use crate::expressions::{has_no_roots, has_operators};
use crate::indexes::PathIndex;
use crate::names::is_name;
use crate::outer_paths::{Answers, Outermost, each_leads};
use crate::steps::leads_to_number;
use gt_types::{Base, Expr, List, Program, TypeId, Word};
use std::alloc::{AllocError, Global};
use std::marker::Model;

fn are_steps(steps: &[Word]) -> bool
    ensures { Decides result (AreSteps steps.now) }
{
    !steps.is_empty() && steps.iter().all(is_name)
}

// The option in which a path stands.
#[derive(Clone, Copy)]
enum PathOption {
    /// The length of a field of the structure, or its own `desc`.
    Own,
    /// The `desc` of a field that holds this union.
    Desc(TypeId),
}

/// The paths in the options of one structure. A path that begins at the structure itself, or at a union of a field, is walked wherever
/// it stands, which takes about as long as its text. Any other is looked at once, however often it stands: what each prefix of it reaches
/// from the structures at which it may begin is looked for once, from the distinct structures that the prefix shorter by a name reaches, and
/// its last name is asked of each that the whole prefix reaches. Where a structure of the program has two fields of one name, each path is
/// walked from each structure at which it may begin. Contracts see the program, its inner structures and the structure.
#[derive(Drop)]
pub struct PathChecks<'a> {
    alloc: Global,
    program: &'a Program,
    index: &'a PathIndex,
    node: TypeId,
    // Of the paths that begin at each structure that contains this one.
    answers: Answers,
    // The outermost structures, which are looked for at the first path that begins there.
    outermost: Option<Outermost>,
}

impl<'a> Model for PathChecks<'a> {
    ghost use Rattle.std.specs.Coded.{codes};
    ghost use Rattle.gt_types.specs.contracts.expressions.Expr as expr;
    ghost use Rattle.gt_types.specs.contracts.types.Ty as ty;
    ghost use Rattle.gt_paths.specs.Checks.{Checked, HasAnswers, checked};

    ghost Value = { Checked };

    ghost coded = { Prim.hlevel (codes, expr.the_row.coded, ty.the_row.coded) };

    ghost view = { λ c. checked c.program.now c.index.now c.node };

    ghost invariant = { λ c. HasAnswers c.program.now c.index.now c.node c.answers c.outermost };
}

impl<'a> PathChecks<'a> {
    /// No path was looked at. It takes no memory.
    pub fn new(
        alloc: Global,
        program: &'a Program,
        index: &'a PathIndex,
        node: TypeId,
    ) -> PathChecks<'a>
        requires index { IsIndexOn program.now index.now }
        ensures checked { result ≡ checked program.now index.now node }
    {
        PathChecks {
            alloc,
            program,
            index,
            node,
            answers: Answers::new(alloc),
            outermost: None,
        }
    }

    /// Whether an expression is good as the length of a field of the structure, or as the `desc` of the union itself, where
    /// the structures are inner that the index has marked. Its only error is out of memory.
    pub fn is_option(&mut self, e: &Expr) -> Result<bool, AllocError>
        ensures decides { IfOk result (λ r. Decides r (IsOptionBeside (inner_of self.old) self.old.program self.old.node e.now)) }
        ensures same { self.new ≡ self.old }
    {
        if !has_operators(e) {
            return Ok(false);
        }
        if !has_no_roots(e) {
            return Ok(false);
        }
        self.all_paths_fit(PathOption::Own, e)
    }

    /// Whether an expression is good as the `desc` of a field of the structure that holds this union, where the structures are
    /// inner that the index has marked. Its only error is out of memory.
    pub fn is_field_desc(&mut self, union: TypeId, e: &Expr) -> Result<bool, AllocError>
        ensures decides { IfOk result (λ r. Decides r (IsFieldDescBeside (inner_of self.old) self.old.program self.old.node union e.now)) }
        ensures same { self.new ≡ self.old }
    {
        if !has_operators(e) {
            return Ok(false);
        }
        if !has_no_roots(e) {
            return Ok(false);
        }
        self.all_paths_fit(PathOption::Desc(union), e)
    }

    // Whether all paths of an expression are good in an option.
    fn all_paths_fit(&mut self, place: PathOption, e: &Expr) -> Result<bool, AllocError>
        ensures decides { IfOk result (λ r. Decides r (All (λ (path : Way). PathAt self.old place path.0 path.1) (paths_of e.now))) }
        ensures same { self.new ≡ self.old }
    {
        match e {
            Expr::Int(_) | Expr::Root(_) => Ok(true),
            Expr::Path { base, steps } => self.path_fits(place, *base, steps),
            Expr::One { a, .. } => self.all_paths_fit(place, a.get()),
            Expr::Two { a, b, .. } => {
                if !self.all_paths_fit(place, a.get())? {
                    return Ok(false);
                }
                self.all_paths_fit(place, b.get())
            }
            Expr::Cond { test, yes, no } => {
                if !self.all_paths_fit(place, test.get())? {
                    return Ok(false);
                }
                if !self.all_paths_fit(place, yes.get())? {
                    return Ok(false);
                }
                self.all_paths_fit(place, no.get())
            }
        }
    }

    // Whether a path is good in an option.
    fn path_fits(
        &mut self,
        place: PathOption,
        base: Base,
        steps: &List<Word>,
    ) -> Result<bool, AllocError>
        ensures decides { IfOk result (λ r. Decides r (PathAt self.old place base steps.now)) }
        ensures same { self.new ≡ self.old }
    {
        if !are_steps(steps.as_slice()) {
            return Ok(false);
        }
        match place {
            PathOption::Own => self.own_path_fits(base, steps),
            PathOption::Desc(union) => self.desc_path_fits(union, base, steps),
        }
    }

    fn own_path_fits(&mut self, base: Base, steps: &List<Word>) -> Result<bool, AllocError>
        ensures decides { IfOk result (λ r. Decides r (PathFitsBeside (inner_of self.old) self.old.program self.old.node base steps.now)) }
        ensures same { self.new ≡ self.old }
    {
        match base {
            Base::Here => Ok(self.leads_from_own(steps)),
            Base::Outer => self.leads_from_containers(steps),
            Base::Outermost => self.leads_from_outermost(steps),
        }
    }

    fn desc_path_fits(
        &mut self,
        union: TypeId,
        base: Base,
        steps: &List<Word>,
    ) -> Result<bool, AllocError>
        ensures decides { IfOk result (λ r. Decides r (DescPathFitsBeside (inner_of self.old) self.old.program self.old.node union base steps.now)) }
        ensures same { self.new ≡ self.old }
    {
        match base {
            Base::Here => Ok(self.leads_from(union, steps)),
            Base::Outer => Ok(self.leads_from_own(steps)),
            Base::Outermost => self.leads_from_outermost(steps),
        }
    }

    // Whether a path leads to a number from the structure itself.
    fn leads_from_own(&self, steps: &List<Word>) -> bool
        ensures decides { Decides result (LeadsToNumber self.now.program self.now.node steps.now) }
    {
        leads_to_number(self.program, self.index, self.node, steps.as_slice())
    }

    // Whether a path leads to a number from another structure.
    fn leads_from(&self, start: TypeId, steps: &List<Word>) -> bool
        ensures decides { Decides result (LeadsToNumber self.now.program start steps.now) }
    {
        leads_to_number(self.program, self.index, start, steps.as_slice())
    }

    // Whether a path leads to a number from each structure that contains this one.
    fn leads_from_containers(&mut self, steps: &List<Word>) -> Result<bool, AllocError>
        ensures decides { IfOk result (λ r. Decides r (PathFitsBeside (inner_of self.old) self.old.program self.old.node Outer steps.now)) }
        ensures same { self.new ≡ self.old }
    {
        let index = self.index;
        let starts = index.containers().of(self.node);
        each_leads(
            self.alloc,
            self.program,
            index,
            starts,
            &mut self.answers,
            steps,
        )
    }

    // Whether a path leads to a number from each outermost structure.
    fn leads_from_outermost(&mut self, steps: &List<Word>) -> Result<bool, AllocError>
        ensures decides { IfOk result (λ r. Decides r (PathFitsBeside (inner_of self.old) self.old.program self.old.node FromOutermost steps.now)) }
        ensures same { self.new ≡ self.old }
    {
        let found = self.outermost.take();
        let mut outermost = Outermost::or_of(found, self.alloc, self.index, self.node)?;
        let leads = outermost.lead(self.alloc, self.program, self.index, self.node, steps)?;
        self.outermost = Some(outermost);
        Ok(leads)
    }
}
