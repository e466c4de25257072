// The blocks that pointers name.
ghost use Rattle.std.specs.Prelude.{◌≡◌};
ghost use Rattle.gt_types.specs.declared.program.Program.{Program};
ghost use Rattle.gt_types.specs.Settled.{Settled};
ghost use Rattle.gt_layout.specs.declared.planes.Layouts.{Layouts};
ghost use Rattle.gt_layout.specs.Planes.{IsLaidOut};
ghost use Rattle.gt_graph.specs.Objects.{blocks_of};
ghost use Rattle.gt_graph.specs.Good.{Heap};
ghost use Rattle.gt_objects.specs.Holding.{IsHeapOf};
ghost use Rattle.gt_objects.specs.InBytes.{blocks_in};
ghost use Rattle.gt_elements.specs.Naming.{AreNamed};

use gt_objects::Objects;
use gt_value::{BlockNames, BlockOf};

/// Objects as the blocks that pointers name, by their addresses.
#[derive(Drop)]
pub struct Names<'a> {
    objects: &'a Objects,
    ghost named: { AreNamed objects.now },
}

impl<'a> Names<'a> {
    /// The blocks of these objects: they are those of each heap of which the bytes are.
    pub fn of(objects: &'a Objects) -> Names<'a>
        requires ready { (program : Program) × (layouts : Layouts) × (heap : Heap) × Settled program × IsLaidOut program layouts × IsHeapOf program layouts objects.now heap }
        ensures objects { result.objects.now ≡ objects.now }
        ensures blocks { (program : Program) (layouts : Layouts) (heap : Heap) → Settled program → IsLaidOut program layouts → IsHeapOf program layouts objects.now heap
            → blocks_in objects.now ≡ blocks_of heap.graph.objects }
    {
        objects.sound();
        Names { objects }
    }
}

impl BlockNames for Names<'_> {
    ghost use Rattle.gt_objects.specs.InBytes.{blocks_in};

    ghost blocks = { λ s. blocks_in s.objects.now };

    fn block(&self, addr: u64) -> Option<BlockOf> {
        let known = self.objects.known_block(addr)?;
        Some(BlockOf {
            kind: known.kind,
            count: known.count,
        })
    }

    fn byte(&self, addr: u64, i: u32) -> u8 {
        self.objects.sound();
        self.objects.space().read_u8(addr + i as u64)
    }

    ghost addresses = { λ s. s.named.addresses };
}
