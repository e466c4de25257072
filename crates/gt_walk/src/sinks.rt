// Where edges go.
ghost use Rattle.gt_walk.specs.Rows.{Edge, edge};

/// Takes edges, one after another.
pub trait EdgeSink {
    /// Which edges a sink can take as it is.
    ghost takes: { Self → Edge → Type 0 };
    /// What a sink may be after it took an edge.
    ghost leaves: { Self → Edge → Self → Type 0 };

    /// Takes an edge: the address of a pointer, the address that it holds, and the walk and the count of the block there.
    fn edge(&mut self, place: u64, target: u64, walk: u32, count: u32)
        requires takes { takes self.old (edge place target walk count) }
        ensures leaves { leaves self.old (edge place target walk count) self.new };
}
