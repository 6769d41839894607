//! The first fault that some numbers have.

ghost use Rattle.std.specs.Prelude.{◌≡◌, ◌-◌, ◌^◌, ◌<◌, ℕ, Option};
ghost use Rattle.std.specs.List.{range_with_len};
ghost use Rattle.kh_types.specs.declared.fault.CodeFault.{CodeFault};
ghost use Rattle.kh_types.specs.Acceptance.{fault_if, first_of};

use crate::fault::CodeFault;
use std::ops::Range;

/// A fault, where a test holds.
pub fn fault_if(holds: bool, fault: CodeFault) -> Option<CodeFault>
    ensures { result ≡ fault_if holds fault }
{
    if holds { Some(fault) } else { None }
}

/// The first fault that one of some numbers has, in order: what `find_map` answers, in the words of
/// the definitions.
pub fn first_of<F: Fn(u8) -> Option<CodeFault>>(
    numbers: Range<u8>,
    fault_at: F,
) -> Option<CodeFault>
    requires { F.IsAlwaysCallable fault_at }
    ensures { (at : ℕ → Option CodeFault)
        → ((x : ℕ) (r : Option CodeFault) → x < 2 ^ 8 → F.post fault_at x r → r ≡ at x)
        → result ≡ first_of at (range_with_len numbers.start (numbers.end - numbers.start)) }
{
    for number in numbers.start..numbers.end {
        if let Some(fault) = fault_at(number) {
            return Some(fault);
        }
    }
    None
}
