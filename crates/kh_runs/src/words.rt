//! The words after the program's name.

ghost use Rattle.std.specs.Prelude.{◌≡◌, ◌≢◌, ◌⊎◌, Err, IfOk, IfErr, map, drop, string_bytes};
ghost use Rattle.std_io.specs.IoError.{error_kind};
ghost use Rattle.std.specs.Vec.Iter.{into_iter_items};

use crate::status::Status;
use kh_types::{NoMemory, Words};
use std::alloc::Global;
use std::env::Args;
use std::io::ErrorKind;
use std::rt::Env;
use std::{env, io};

/// The words after the program's name, in their order. Where one of the arguments is no text the
/// answer is the status `Usage`, and out of memory it is `NoMemory`. Which arguments a system has
/// is known to no proof.
pub fn words_of<R: Env + AllocGlobal>(rt: &R) -> Result<Words, Status>
    ensures stop { IfErr result (λ status. (status ≡ Status.Usage) ⊎ (status ≡ Status.NoMemory)) }
{
    words_given(rt.alloc(), env::args(rt))
}

/// The words among the arguments that a system has, or has not, given: all but the first, in their
/// order. Where it has given none, for want of memory or since one is no text, that decides the
/// status.
pub fn words_given(alloc: Global, args: io::Result<Args>) -> Result<Words, Status>
    ensures words { IfOk args (λ args. IfOk result
        (λ words. words ≡ map string_bytes (drop 1 (into_iter_items args)))) }
    ensures stop { IfOk args (λ args. IfErr result (λ status. status ≡ Status.NoMemory)) }
    ensures memory { IfErr args (λ error. error_kind error ≡ ErrorKind.OutOfMemory
        → result ≡ Err Status.NoMemory) }
    ensures usage { IfErr args (λ error. error_kind error ≢ ErrorKind.OutOfMemory
        → result ≡ Err Status.Usage) }
{
    match args {
        Ok(args) => words_after_name(alloc, args).map_err(|_| Status::NoMemory),
        Err(error) => Err(status_without_words(error.kind())),
    }
}

/// How the program ends where a system does not give its words: out of memory, or one of them is no
/// text.
fn status_without_words(kind: ErrorKind) -> Status
    ensures memory { kind ≡ ErrorKind.OutOfMemory → result ≡ Status.NoMemory }
    ensures other { kind ≢ ErrorKind.OutOfMemory → result ≡ Status.Usage }
{
    match kind {
        ErrorKind::OutOfMemory => Status::NoMemory,
        _ => Status::Usage,
    }
}

/// All arguments but the first, which is the program's name.
fn words_after_name(alloc: Global, args: Args) -> Result<Words, NoMemory>
    ensures { IfOk result (λ words. words ≡ map string_bytes (drop 1 (into_iter_items args))) }
{
    let mut words = Words::new(alloc)?;
    'words: for word in args.skip(1) {
        words.push(alloc, word.as_str())?;
    }
    Ok(words)
}
