//! What is told of a file, and what a file says, is one thing.
ghost use Rattle.std.specs.Prelude.{◌≡◌, ◌≢◌, ℕ, ◌-◌, List, None, Some, length, slice_get};
ghost use Rattle.ray_grid.specs.Covering.{Covers};
ghost use Rattle.ratfun_text.specs.Printed.{AreVariables};
ghost use Rattle.ray_grid.specs.Grid.{bound_of};
ghost use Rattle.graph_file.specs.File.{IsFirstBad, IsGoodFile};
ghost use Rattle.graph_file.specs.Bounded.{HasBounds};
ghost use Rattle.graph_file.specs.Says.{FileForm, Says, bounds_at, grid_of};
ghost use Rattle.graph_file.specs.declared.error.FileKind.{FileKind};
ghost use Rattle.graph_file.specs.declared.graph.Graph.{Graph};
ghost use Rattle.graph_file.specs.declared.job.Need.{Need};

/// At most one line and kind is told of a file.
pub fn one_fault()
    ensures { (need : Need) (bytes : List ℕ) (m n : ℕ) (k l : FileKind) → IsFirstBad need bytes m k → IsFirstBad need bytes n l → (m ≡ n) × (k ≡ l) }
{}

/// Nothing is told of a file with which nothing is wrong.
pub fn no_fault()
    ensures { (need : Need) (bytes : List ℕ) (n : ℕ) (k : FileKind) → IsGoodFile need bytes → IsFirstBad need bytes n k → ⊥ }
{}

/// A file says at most one thing.
pub fn one_form()
    ensures { (need : Need) (bytes : List ℕ) (f g : FileForm) → Says need bytes f → Says need bytes g → f ≡ g }
{}

/// What a file says of bounds is sound.
pub fn said_bounds()
    ensures { (need : Need) (bytes : List ℕ) (f : FileForm) → IsGoodFile need bytes → Says need bytes f → HasBounds f.graphs f.all f.special f.coeff need }
{}

/// The grid that a file says covers the bounds of each output.
pub fn said_grid()
    ensures { (need : Need) (bytes : List ℕ) (f : FileForm) (output : ℕ) → IsGoodFile need bytes → Says need bytes f → f.all ≢ None →
        Covers (bound_of (grid_of f)) (bounds_at f output) }
{}

/// The variables of the main graph that a file says are 1 to 8 distinct names.
pub fn said_names()
    ensures { (need : Need) (bytes : List ℕ) (f : FileForm) → IsGoodFile need bytes → Says need bytes f →
        (graph : Graph) × (slice_get f.graphs (length f.graphs - 1) ≡ Some graph) × AreVariables graph.inputs }
{}
