//! What follows from the definitions of walks, for callers to cite. The function does nothing: its clauses are laws.
ghost use Rattle.std.specs.Prelude.{◌≡◌, ℕ};
ghost use Rattle.gt_space.specs.Range.{Range};
ghost use Rattle.gt_walk.specs.declared.tables.Tables.{Tables};
ghost use Rattle.gt_walk.specs.Rows.{edges_of, rows_of, size_in_note};
ghost use Rattle.gt_walk.specs.ByRows.{after_note, edges_of_rows, element_edges, run_edges};

/// What `visit_with_rows` gives for the rows of a walk is what `visit` gives for the walk. It is also what `visit_element` gives by the
/// rows after their note, for one element after another, each as many bytes after the one before it as the note says. So one element has
/// the edges of a count of 1.
pub fn rows_give_the_edges_of_their_walk()
    ensures rows { (tables : Tables) (walk count : ℕ) (range : Range) (address : ℕ) → edges_of_rows tables (rows_of tables walk) count range address ≡ edges_of tables walk count range address }
    ensures elements { (tables : Tables) (walk count : ℕ) (range : Range) (address : ℕ) → run_edges (element_edges tables range (after_note (rows_of tables walk))) address (size_in_note (rows_of tables walk)) count ≡ edges_of tables walk count range address }
    ensures one { (tables : Tables) (walk : ℕ) (range : Range) (address : ℕ) → element_edges tables range (after_note (rows_of tables walk)) address ≡ edges_of tables walk 1 range address }
{}
