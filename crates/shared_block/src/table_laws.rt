//! What blocks and the homology table have: blocks stay those of their diagram whatever is
//! cancelled in them, and the rows of a table stand block by block.

ghost use Rattle.std.specs.Prelude.{◌≡◌, ℕ, ℤ, List, [], false};
ghost use Rattle.std.specs.List.{AllZip, flat_map};
ghost use Rattle.kh_types.specs.Code.{Code};
ghost use Rattle.kh_types.specs.Table.{rows_at, table};
ghost use Rattle.cube_signs.specs.Blocks.{block_degrees, has_block};
ghost use Rattle.shared_block.specs.BlockHistories.{BlockHistory};
ghost use Rattle.shared_block.specs.AllBlocks.{AreBlocksOf, IsLaterOf, opening_blocks};

/// The blocks that a diagram has before any cancellation are its blocks, and they are after any.
pub fn blocks_stay_those_of_their_diagram()
    ensures opening { (code : Code) → AreBlocksOf code (opening_blocks code) }
    ensures later { (code : Code) (before after : List BlockHistory)
        → AllZip IsLaterOf before after → AreBlocksOf code before → AreBlocksOf code after }
{}

/// Blocks that are left as they are, or that are cancelled in twice, are later ones.
pub fn later_blocks_follow_one_another()
    ensures same { (blocks : List BlockHistory) → AllZip IsLaterOf blocks blocks }
    ensures twice { (first second third : List BlockHistory) → AllZip IsLaterOf first second
        → AllZip IsLaterOf second third → AllZip IsLaterOf first third }
{}

/// The rows of a table are those of its blocks, one after another; other quantum degrees have none.
pub fn tables_are_their_blocks()
    ensures rows { (p : ℕ) (code : Code)
        → (table p code).rows ≡ flat_map (rows_at p code) (block_degrees code) }
    ensures none { (p : ℕ) (code : Code) (j : ℤ) → has_block code j ≡ false
        → rows_at p code j ≡ [] }
{}
