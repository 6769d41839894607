//! The line of words of `kh-scan`, as `clap` is told of it.

ghost use Rattle.std.specs.Prelude.{◌≡◌, IfOk};
ghost use Rattle.clap.specs.Simple.{app_of};
ghost use Rattle.word_line.specs.ScanLine.{each_line, scan_line};

use crate::line::{bare_line, with_option};
use clap::{Arg, Command};
use std::alloc::{AllocError, Global};

/// One positional, which may be absent, and one option that takes a value; no help, no name of the
/// program before the words.
pub(crate) fn scan_line<'a>(alloc: Global) -> Result<Command<'a>, AllocError>
    ensures { IfOk result (λ command. app_of command ≡ scan_line) }
{
    let line = each_line(alloc)?;
    with_option(alloc, line, "field")
}

/// The line with the positional alone.
fn each_line<'a>(alloc: Global) -> Result<Command<'a>, AllocError>
    ensures { IfOk result (λ command. app_of command ≡ each_line) }
{
    bare_line(alloc, "kh-scan").arg(Arg::new(alloc, "task"))
}
