//! A cache with as many pairs as there may be, which no script has the commands to make: so the machine is given its commands here, one after another. The
//! output is what it then answers: the pair of a new key is refused, that of an old key is not, and a collection drops all pairs.
#![tactic(auto)]

ghost use Rattle.std.specs.Prelude.{◌<◌, ◌^◌, IfOk, length};
ghost use Rattle.gt_schema.specs.Schemas.{IsSchema};
ghost use Rattle.gt_session.specs.Sessions.{IsSession};

use gt_answers::Answers;
use gt_headers::{declare, declared_programs_are_settled};
use gt_io::{HostFiles, HostOut};
use gt_lines::run_line;
use gt_schema::Schema;
use gt_script::{Line, parse_script};
use gt_session::Session;
use gt_steps::is_built;
use gt_types::{Bytes, List};
use std::alloc::{AllocError, Global};
use std::process::ExitCode;

/// A structure, and a cache of it.
const HEADER: &[u8] =
    b"struct GTY(()) node { struct node *next; };\nstatic GTY((cache)) hash_map<node *, node *> *map;\n";

/// The first pair.
const FIRST: &[u8] = b"@new $first node\n@put map $first $first\n";

/// One pair more.
const MORE: &[u8] = b"@new $k node\n@put map $k $k\n";

/// What is asked of the full cache.
const LAST: &[u8] =
    b"new $k node\nput map $k $k\nput map $first $k\nfind map $first\nfind map $k\ncollect force\n";

/// How many pairs come after the first one, up to the most that there may be.
const OTHERS: u32 = 1048575;

/// The pages of the space.
const PAGES: u32 = 4096;

/// The percentage by which a heap grows, and the units of 1,024 bytes of the least heap: of no effect here.
const MIN_EXPAND: u32 = 30;

const MIN_HEAPSIZE: u32 = 4096;

/// The status where memory or the output fails, or a text is refused.
const FAILED: u8 = 1;

/// A text is refused, a line is not answered, or memory runs out.
#[derive(Debug, Drop)]
struct Failed;

impl From<AllocError> for Failed {
    fn from(_: AllocError) -> Failed {
        Failed
    }
}

fn main(rt: HostRuntime) -> ExitCode {
    let alloc = rt.alloc();
    let mut out = HostOut::new(rt.stdout());
    let mut files = HostFiles::new(rt);
    match fill(alloc, &mut files, &mut out) {
        Ok(()) => ExitCode::SUCCESS,
        Err(Failed) => ExitCode::from(FAILED),
    }
}

// Fills the cache, and asks it.
fn fill(alloc: Global, files: &mut HostFiles, out: &mut HostOut) -> Result<(), Failed> {
    let mut session = open(alloc)?;
    let first = lines_of(alloc, FIRST)?;
    let more = lines_of(alloc, MORE)?;
    let last = lines_of(alloc, LAST)?;
    run(alloc, &mut session, files, out, first.as_slice())?;
    repeat(alloc, &mut session, files, out, more.as_slice())?;
    run(alloc, &mut session, files, out, last.as_slice())
}

// What is made of the header.
fn schema_of(alloc: Global) -> Result<Schema, Failed>
    ensures schema { IfOk result IsSchema }
{
    declared_programs_are_settled();
    let mut texts = Vec::new(alloc);
    let Ok(()) = texts.push(Bytes::of(alloc, HEADER)?) else {
        return Err(Failed);
    };
    match declare(alloc, &texts) {
        Ok(declared) => Ok(Schema::of(alloc, declared.program, declared.layouts)?),
        Err(_) => Err(Failed),
    }
}

// The session with which a run under the header begins.
fn open(alloc: Global) -> Result<Session, Failed>
    ensures session { IfOk result IsSession }
{
    let schema = schema_of(alloc)?;
    let session = Session::open(alloc, schema, PAGES, MIN_EXPAND, MIN_HEAPSIZE)?;
    Ok(session)
}

// The lines of a script.
fn lines_of(alloc: Global, text: &[u8]) -> Result<List<Line>, Failed>
    requires short { length text.now < 2 ^ 32 }
{
    match parse_script(alloc, Bytes::of(alloc, text)?) {
        Ok(lines) => Ok(lines),
        Err(_) => Err(Failed),
    }
}

// Answers the lines, and writes their texts.
fn run(
    alloc: Global,
    session: &mut Session,
    files: &mut HostFiles,
    out: &mut HostOut,
    lines: &[Line],
) -> Result<(), Failed>
    requires session { IsSession session.old }
    ensures session { IsSession session.new }
{
    for line in lines {
        if !is_built(&line.command) {
            return Err(Failed);
        }
        let mut answers = Answers::new(alloc);
        let Ok(()) = run_line(alloc, session, files, out, &mut answers, line) else {
            return Err(Failed);
        };
    }
    Ok(())
}

// Answers the lines again and again, once for each of the other pairs.
fn repeat(
    alloc: Global,
    session: &mut Session,
    files: &mut HostFiles,
    out: &mut HostOut,
    lines: &[Line],
) -> Result<(), Failed>
    requires session { IsSession session.old }
    ensures session { IsSession session.new }
{
    for _pair in 0..OTHERS {
        run(alloc, session, files, out, lines)?;
    }
    Ok(())
}
