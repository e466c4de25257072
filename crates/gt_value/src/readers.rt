// What the expressions of options are worth in bytes.
ghost use Rattle.std.specs.Prelude.{◌≡◌};
ghost use Rattle.gt_types.specs.Values.{value_of};
ghost use Rattle.gt_fields.specs.FieldNames.{field_names};
ghost use Rattle.gt_layout.specs.Planes.{IsLaidOut};
ghost use Rattle.gt_value.specs.Reading.{path_worth, root_worth, worth_of};

use crate::sources::{Around, Source, begin_at, end_from, number_in, within_i64};
use gt_types::{Base, Expr, Reader, Word, eval};

// What the expressions of options read inside some structures of a value. The layouts have the names of the program, by which the fields
// of a path are found.
#[derive(Drop)]
struct Reading<'a> {
    source: &'a Source<'a>,
    around: Around,
    ghost named: { source.now.layouts.now.names ≡ field_names source.now.program.now.structures },
}

impl Reader for Reading<'_> {
    ghost leaf_of = { λ r. path_worth r.source.now r.around };

    ghost root_of = { λ r. root_worth r.source.now };

    fn leaf(&self, base: &Base, steps: &[Word]) -> Option<i64> {
        let source = self.source;
        let anchor = self.around.anchor(*base)?;
        let end = end_from(source.space, source.from) as u32;
        let cell = source.walk(end, anchor, steps)?;
        within_i64(number_in(source.space, source.from, cell.ty, cell.at as u64)?)
    }

    fn root(&self, i: u32) -> Option<i64> {
        let source = self.source;
        let root = source.program.roots.get(i as usize)?;
        let spot = source.layouts.statics.fields.get(i as usize)?;
        within_i64(number_in(source.space, 0, &root.ty, begin_at(spot))?)
    }
}

/// What the expression of an option is worth, where there is one.
pub fn worth_of(e: &Option<Expr>, source: &Source<'_>, around: Around) -> Option<i64>
    requires laid { IsLaidOut source.now.program.now source.now.layouts.now }
    ensures { result ≡ worth_of source.now around e.now }
{
    match e {
        Some(e) => worth(e, source, around),
        None => None,
    }
}

/// What an expression is worth inside some structures of a value.
pub fn worth(e: &Expr, source: &Source<'_>, around: Around) -> Option<i64>
    requires laid { IsLaidOut source.now.program.now source.now.layouts.now }
    ensures { result ≡ value_of (path_worth source.now around) (root_worth source.now) e.now }
{
    eval(e, &Reading { source, around })
}
