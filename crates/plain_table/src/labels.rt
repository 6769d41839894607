//! Labels, and how they change along an edge of the cube: the merge table and the split table.

ghost use Rattle.std.specs.Prelude.{◌≡◌};
ghost use Rattle.kh_types.specs.Differential.{is_merge, is_split};

use crate::circles::NAMES;
use arrayvec::ArrayVec;

/// The labels of some circles of a state, in the order of the circles: 0 for v+, 1 for v-.
pub type Labels = ArrayVec<u8, NAMES>;

/// v+ v+ gives v+, and v+ v- and v- v+ give v-. Source: Bar-Natan 2002, section 3.
pub fn is_merge(before: &[u8], after: &[u8]) -> bool
    ensures { result ≡ is_merge before.now after.now }
{
    (before == [0, 0].as_slice() && after == [0].as_slice())
        || ((before == [0, 1].as_slice() && after == [1].as_slice())
            || (before == [1, 0].as_slice() && after == [1].as_slice()))
}

/// v+ gives v+ v- and v- v+, and v- gives v- v-. Source: Bar-Natan 2002, section 3.
pub fn is_split(before: &[u8], after: &[u8]) -> bool
    ensures { result ≡ is_split before.now after.now }
{
    (before == [0].as_slice() && after == [0, 1].as_slice())
        || ((before == [0].as_slice() && after == [1, 0].as_slice())
            || (before == [1].as_slice() && after == [1, 1].as_slice()))
}
