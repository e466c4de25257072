// What commands change.
ghost use Rattle.std.specs.Prelude.{◌≡◌, ◌≤◌, [], Option, IfOk, length, replicate};
ghost use Rattle.gt_types.specs.declared.program.Program.{Program};
ghost use Rattle.gt_types.specs.Settled.{Settled};
ghost use Rattle.gt_layout.specs.Planes.{IsLaidOut};
ghost use Rattle.gt_tree.specs.Trees.{Trees};
ghost use Rattle.gt_tree.specs.Fits.{IsZeroRecord};
ghost use Rattle.gt_graph.specs.Objects.{blocks_of};
ghost use Rattle.gt_objects.specs.Holding.{IsHeapOf, opening};
ghost use Rattle.gt_io.specs.Held.{Held};
ghost use Rattle.gt_space.specs.declared.TheConstants.{MIN_PAGES, MAX_PAGES};
ghost use Rattle.gt_types.specs.declared.limits.TheConstants.{MAX_MIN_EXPAND, MAX_MIN_HEAPSIZE};
ghost use Rattle.gt_next.specs.States.{State, IsOpening};
ghost use Rattle.gt_schema.specs.Schemas.{IsSchema};
ghost use Rattle.gt_session.specs.Sessions.{StandsFor};

use gt_caches::Caches;
use gt_objects::Objects;
use gt_schema::Schema;
use gt_space::Space;
use gt_vars::Vars;
use std::alloc::{AllocError, Global};

/// The schema of a program, and what commands change. The numbers `min_expand` (a percentage) and `min_heapsize` (units of 1,024 bytes)
/// say when a collection may be skipped, `last` is the bytes of all blocks after the last one, and `rounds` the rounds of its
/// marking.
#[derive(Drop)]
pub struct Session {
    pub schema: Schema,
    pub objects: Objects,
    pub caches: Caches,
    pub vars: Vars,
    pub min_expand: u32,
    pub min_heapsize: u32,
    pub last: u64,
    pub rounds: u32,
}

// No object, zero roots, and no pair.
#[derive(Drop)]
struct Beginning {
    objects: Objects,
    caches: Caches,
}

// What a run of a program begins with.
fn begin_empty(alloc: Global, schema: &Schema, pages: u32) -> Result<Beginning, AllocError>
    requires schema { IsSchema schema.now }
    requires at_least { MIN_PAGES ≤ pages }
    requires at_most { pages ≤ MAX_PAGES }
    ensures opening { IfOk result (λ begun. (program : Program) (statics : Trees) → Settled program → IsLaidOut program schema.now.layouts
        → IsZeroRecord program (blocks_of []) statics → IsHeapOf program schema.now.layouts begun.objects (opening program pages statics)) }
    ensures no_pairs { IfOk result (λ begun. begun.caches ≡ replicate (length schema.now.program.caches) []) }
{
    let objects = Objects::new(alloc, &schema.layouts, pages)?;
    let caches = Caches::new(alloc, schema.program.caches.len())?;
    Ok(Beginning { objects, caches })
}

impl Session {
    /// The session from which a run begins: no object, zero roots, no pair, no variable. It fails only if memory runs out.
    pub fn open(
        alloc: Global,
        schema: Schema,
        pages: u32,
        min_expand: u32,
        min_heapsize: u32,
    ) -> Result<Session, AllocError>
        requires schema { IsSchema schema }
        requires at_least { MIN_PAGES ≤ pages }
        requires at_most { pages ≤ MAX_PAGES }
        requires min_expand { min_expand ≤ MAX_MIN_EXPAND }
        requires min_heapsize { min_heapsize ≤ MAX_MIN_HEAPSIZE }
        ensures opens { IfOk result (λ session. (told : Option Held) → (s : State) × IsOpening schema.program pages min_expand min_heapsize told s × StandsFor session told s) }
        ensures schema { IfOk result (λ session. session.schema ≡ schema) }
    {
        match begin_empty(alloc, &schema, pages) {
            Ok(begun) => Ok(Session {
                schema,
                objects: begun.objects,
                caches: begun.caches,
                vars: Vars::new(alloc),
                min_expand,
                min_heapsize,
                last: 0,
                rounds: 0,
            }),
            Err(e) => {
                drop(schema);
                Err(e)
            }
        }
    }

    /// Gives the space back.
    pub fn into_space(self) -> Space
        ensures { result ≡ self.objects.space }
    {
        let Session {
            schema,
            objects,
            caches,
            vars,
            ..
        } = self;
        drop(schema);
        drop(caches);
        drop(vars);
        objects.into_space()
    }
}
