// The blocks that pointers name, of which one may be known.
ghost use Rattle.std.specs.Prelude.{◌≡◌, Some};
ghost use Rattle.gt_types.specs.declared.program.Program.{Program};
ghost use Rattle.gt_types.specs.Settled.{Settled};
ghost use Rattle.gt_layout.specs.declared.planes.Layouts.{Layouts};
ghost use Rattle.gt_layout.specs.Planes.{IsLaidOut};
ghost use Rattle.gt_graph.specs.Objects.{blocks_of};
ghost use Rattle.gt_graph.specs.Good.{Heap};
ghost use Rattle.gt_objects.specs.Holding.{IsHeapOf};
ghost use Rattle.gt_objects.specs.InBytes.{blocks_in, known_in};
ghost use Rattle.gt_writes.specs.declared.found.Target.{Target};
ghost use Rattle.gt_writes.specs.FoundLeaves.{IsTarget};

use crate::found::Target;
use gt_elements::Names;
use gt_objects::{Known, Objects};
use gt_value::{BlockNames, BlockOf};

/// The blocks of objects, of which one may be known already: it is not looked up again.
#[derive(Drop)]
pub struct NamesBeside<'a> {
    names: Names<'a>,
    target: Option<Target>,
    ghost known: { (t : Target) → target ≡ Some t → known_in names.objects.now t.addr ≡ Some t.known },
}

impl<'a> NamesBeside<'a> {
    /// The blocks of these objects, of which one may be known.
    pub fn of(objects: &'a Objects, target: Option<Target>) -> NamesBeside<'a>
        requires ready { (program : Program) × (layouts : Layouts) × (heap : Heap) × Settled program × IsLaidOut program layouts × IsHeapOf program layouts objects.now heap
            × ((t : Target) → target ≡ Some t → IsTarget heap.graph.objects t) }
        ensures objects { result.names.objects.now ≡ objects.now }
        ensures blocks { (program : Program) (layouts : Layouts) (heap : Heap) → Settled program → IsLaidOut program layouts → IsHeapOf program layouts objects.now heap
            → blocks_in objects.now ≡ blocks_of heap.graph.objects }
    {
        let names = Names::of(objects);
        NamesBeside { names, target }
    }
}

// What pointers need to know of a block of which this is known.
fn block_of(known: Known) -> BlockOf
    ensures { result ≡ record { kind = known.kind; count = known.count } }
{
    BlockOf {
        kind: known.kind,
        count: known.count,
    }
}

impl BlockNames for NamesBeside<'_> {
    ghost use Rattle.gt_objects.specs.InBytes.{blocks_in};

    ghost blocks = { λ s. blocks_in s.names.objects.now };

    fn block(&self, addr: u64) -> Option<BlockOf> {
        if let Some(target) = self.target {
            if target.addr == addr {
                return Some(block_of(target.known));
            }
        }
        self.names.block(addr)
    }

    fn byte(&self, addr: u64, i: u32) -> u8 {
        self.names.byte(addr, i)
    }

    ghost addresses = { λ s. s.names.named.addresses };
}
