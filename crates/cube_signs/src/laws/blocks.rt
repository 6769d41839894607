//! Where the blocks of a cube begin and end.

ghost use Rattle.std.specs.Prelude.{◌≡◌, ◌≢◌, ℕ, [], ℤ, pos, neg_ℤ, ◌≤ℤ◌};
ghost use Rattle.std.specs.List.{Contains};
ghost use Rattle.kh_types.specs.Code.{Code};
ghost use Rattle.kh_types.specs.Generators.{generators_at};
ghost use Rattle.kh_types.specs.History.{block};
ghost use Rattle.kh_types.specs.WorkedCodes.{trefoil};
ghost use Rattle.sparse_block.specs.Complexes.{high_of};
ghost use Rattle.cube_signs.specs.Blocks.{block_degrees};

/// At a quantum degree that has a generator, a block goes from the least homological degree that
/// has one there to the greatest: at both there is one, and none is outside. The block of the
/// trefoil at -5 goes from -3 to 0.
pub fn blocks_end_at_generators()
    ensures least { (p : ℕ) (code : Code) (j : ℤ) → Contains (block_degrees code) j
        → generators_at code (block p code j).low j ≢ [] }
    ensures greatest { (p : ℕ) (code : Code) (j : ℤ) → Contains (block_degrees code) j
        → generators_at code (high_of (block p code j)) j ≢ [] }
    ensures none_outside { (p : ℕ) (code : Code) (i j : ℤ) → generators_at code i j ≢ []
        → ((block p code j).low ≤ℤ i) × (i ≤ℤ high_of (block p code j)) }
    ensures three { ((block 2 trefoil (neg_ℤ (pos 5))).low ≡ neg_ℤ (pos 3))
        × (high_of (block 2 trefoil (neg_ℤ (pos 5))) ≡ pos 0) }
{}
