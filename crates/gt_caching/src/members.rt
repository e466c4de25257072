// What names mean: caches, and variables as keys and values.
ghost use Rattle.std.specs.Prelude.{◌≡◌, None, IfErr, IfOk, MatchOption, Option};
ghost use Rattle.std.specs.Bool.{Decides};
ghost use Rattle.gt_io.specs.Held.{Held};
ghost use Rattle.gt_tree.specs.Blocks.{Nodes};
ghost use Rattle.gt_value.specs.Names.{kind_of};
ghost use Rattle.gt_next.specs.States.{State};
ghost use Rattle.gt_next.specs.Caching.{cache_of, IsMember, RefusesMember};
ghost use Rattle.gt_session.specs.Sessions.{IsSession, StandsFor};
ghost use Rattle.gt_caching.specs.Members.{IsNamed};

use gt_next::Why;
use gt_objects::Known;
use gt_session::Session;
use gt_types::{TypeId, Word};
use gt_value::BlockKind;

// A cache: its place, and the types of its keys and values.
#[derive(Clone, Copy)]
pub(crate) struct NamedCache {
    pub(crate) place: usize,
    pub(crate) key: TypeId,
    pub(crate) value: TypeId,
}

// The cache of a name.
pub(crate) fn named_cache(s: &Session, name: &Word) -> Option<NamedCache>
    requires session { IsSession s.now }
    ensures named { (told : Option Held) (state : State) → StandsFor s.now told state → MatchOption result (cache_of s.now.schema.program name.now ≡ None) (IsNamed s.now.schema.program state name.now) }
{
    let place = s.schema.names.cache(name)?;
    let cache = s.schema.program.caches.get(place)?;
    Some(NamedCache {
        place,
        key: cache.key,
        value: cache.value,
    })
}

// Whether what is known of an object says that it is a single structure of this type.
fn is_single(known: Known, ty: TypeId) -> bool
    ensures single { Decides result ((kind_of known.kind ≡ Nodes ty) × (known.count ≡ 1)) }
{
    match known.kind {
        BlockKind::Nodes(node) => node == ty && known.count == 1,
        BlockKind::Pointers(_) | BlockKind::Strings => false,
        BlockKind::Chars | BlockKind::Raw => false,
    }
}

// The object that a variable means, if it is a single structure of this type.
pub(crate) fn member(s: &Session, name: &Word, ty: TypeId) -> Result<u64, Why>
    requires session { IsSession s.now }
    ensures member { IfOk result (λ id. (told : Option Held) (state : State) → StandsFor s.now told state → IsMember state name.now ty id) }
    ensures refused { IfErr result (λ why. (told : Option Held) (state : State) → StandsFor s.now told state → RefusesMember state name.now ty why) }
{
    let Some(addr) = s.vars.get(name) else {
        return Err(Why::Unbound);
    };
    match s.objects.known(addr) {
        Some(known) if is_single(known, ty) => Ok(addr),
        _ => Err(Why::WrongType),
    }
}
