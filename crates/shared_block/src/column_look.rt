//! Looks at a block whose columns are being reduced.

ghost use Rattle.std.specs.Prelude.{◌≡◌};
ghost use Rattle.shared_block.specs.ColumnBlocks.{pivot_seen, version_seen};

use column_reduction::FoundColumn;
use cube_signs::Around;
use sparse_block::Pivot;

/// The next column of a block of which something is left, reduced, with its pivot, the version at
/// which it was found, and the edges of the cube that were found for it. A commit takes it as it is.
#[derive(Drop)]
pub struct ColumnLook {
    pub(crate) version: u64,
    pub(crate) found: FoundColumn,
    pub(crate) near: Around,
}

impl ColumnLook {
    /// The version at which the look was made, the length of the history then.
    pub fn version(&self) -> u64
        ensures { result ≡ version_seen self.now }
    {
        self.version
    }

    /// The pivot.
    pub fn pivot(&self) -> Pivot
        ensures { result ≡ pivot_seen self.now }
    {
        self.found.pivot()
    }
}
