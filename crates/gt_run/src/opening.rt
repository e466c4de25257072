// The session with which a script begins.
ghost use Rattle.std.specs.Prelude.{◌≡◌, IfOk, Option};
ghost use Rattle.gt_types.specs.Settled.{Settled};
ghost use Rattle.gt_layout.specs.Planes.{IsLaidOut};
ghost use Rattle.gt_layout.specs.Excess.{IsWithin};
ghost use Rattle.gt_io.specs.Held.{Held};
ghost use Rattle.gt_words.specs.Ranges.{AreInRange};
ghost use Rattle.gt_next.specs.States.{State};
ghost use Rattle.gt_schema.specs.Schemas.{IsSchema};
ghost use Rattle.gt_session.specs.Sessions.{StandsFor};
ghost use Rattle.gt_run.specs.Runs.{Opens};

use gt_layout::Layouts;
use gt_schema::Schema;
use gt_session::Session;
use gt_types::Program;
use gt_words::Settings;
use std::alloc::{AllocError, Global};

/// The session of a program under these settings, in which nothing was done so far. It fails only if memory runs out.
pub fn open(
    alloc: Global,
    program: Program,
    layouts: Layouts,
    settings: Settings,
) -> Result<Session, AllocError>
    requires settled { Settled program }
    requires laid { IsLaidOut program layouts }
    requires within { IsWithin program layouts }
    requires settings { AreInRange settings }
    ensures opens { IfOk result (λ session. (told : Option Held) → (s : State) × Opens program settings told s × StandsFor session told s) }
    ensures program { IfOk result (λ session. session.schema.program ≡ program) }
    ensures layouts { IfOk result (λ session. session.schema.layouts ≡ layouts) }
{
    let schema = Schema::of(alloc, program, layouts)?;
    open_schema(alloc, schema, settings)
}

// The session of a schema.
fn open_schema(alloc: Global, schema: Schema, settings: Settings) -> Result<Session, AllocError>
    requires schema { IsSchema schema }
    requires settings { AreInRange settings }
    ensures opens { IfOk result (λ session. (told : Option Held) → (s : State) × Opens schema.program settings told s × StandsFor session told s) }
    ensures schema { IfOk result (λ session. session.schema ≡ schema) }
{
    Session::open(
        alloc,
        schema,
        settings.pages,
        settings.min_expand,
        settings.min_heapsize,
    )
}
