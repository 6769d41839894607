//! Laws of the definitions: each is the contract of a function that does nothing.

ghost use Rattle.std.specs.Prelude.{◌≡◌};
ghost use Rattle.kh_io.specs.declared.limits.TheConstants.{READ_BYTES};

/// The value of the limit on the bytes of one read.
pub fn limits_of_reads()
    ensures { READ_BYTES ≡ 4096 }
{}
