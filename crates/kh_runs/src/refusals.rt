//! The lines of refusals and limits that are known without a diagram.

ghost use Rattle.std.specs.Prelude.{◌≡◌, IfOk};
ghost use Rattle.kh_runs.specs.Refusals.{usage, too_many_bytes, too_many_crossings, too_many_loops, too_many_lines, refused_line, refused_log_line, refused_mark, refused_with, refused_with_both, limit_on};

use crate::reply::{Reply, fixed_reply, reply_with};
use crate::status::Status;
use kh_types::{CROSSINGS, LOOPS, NoMemory};
use std::alloc::Global;

/// The reply to words that give no command.
pub fn usage(alloc: Global) -> Result<Reply, NoMemory>
    ensures { IfOk result (λ reply. reply ≡ usage) }
{
    fixed_reply(alloc, Status::Usage, "usage: kh COMMAND [OPTIONS]\n")
}

/// The reply to more bytes than a limit.
pub fn too_many_bytes(alloc: Global, limit: u32) -> Result<Reply, NoMemory>
    ensures { IfOk result (λ reply. reply ≡ too_many_bytes limit) }
{
    let most = u128::from(limit);
    limit_on(alloc, "bytes", most + 1, most)
}

/// The reply to more crossings than a diagram may have.
pub fn too_many_crossings(alloc: Global, count: u32) -> Result<Reply, NoMemory>
    ensures { IfOk result (λ reply. reply ≡ too_many_crossings count) }
{
    limit_on(alloc, "crossings", count.into(), CROSSINGS as u128)
}

/// The reply to more loops than a text may have.
pub fn too_many_loops(alloc: Global, count: u32) -> Result<Reply, NoMemory>
    ensures { IfOk result (λ reply. reply ≡ too_many_loops count) }
{
    limit_on(alloc, "loops", count.into(), LOOPS as u128)
}

/// The reply to a script with more lines than a limit.
pub fn too_many_lines(alloc: Global, count: u32, limit: usize) -> Result<Reply, NoMemory>
    ensures { IfOk result (λ reply. reply ≡ too_many_lines count limit) }
{
    limit_on(alloc, "lines", count.into(), limit as u128)
}

/// The reply to a script with a line that is no command.
pub fn refused_line(alloc: Global, line: u32) -> Result<Reply, NoMemory>
    ensures { IfOk result (λ reply. reply ≡ refused_line line) }
{
    refused_with(alloc, "line ", line)
}

/// The reply to a mark that is neither an arc nor a loop of a diagram.
pub fn refused_mark(alloc: Global, mark: u8) -> Result<Reply, NoMemory>
    ensures { IfOk result (λ reply. reply ≡ refused_mark mark) }
{
    refused_with(alloc, "mark ", mark.into())
}

/// The reply to a log with a line that fails, and the word of its cause.
pub fn refused_log_line(alloc: Global, line: u32, cause: &str) -> Result<Reply, NoMemory>
    ensures { IfOk result (λ reply. reply ≡ refused_log_line line cause.now) }
{
    let text = format!(in alloc; "refused log line {line} {cause}\n")?;
    Ok(reply_with(Status::CodeRefused, text))
}

/// The reply that a limit on things of a name is passed, by so many of them.
pub fn limit_on(alloc: Global, name: &str, count: u128, most: u128) -> Result<Reply, NoMemory>
    ensures { IfOk result (λ reply. reply ≡ limit_on name.now count most) }
{
    let line = format!(in alloc; "limit {name} {count} of {most}\n")?;
    Ok(reply_with(Status::Limit, line))
}

/// The reply that a code is refused, with words that say why, and a number behind them.
pub fn refused_with(alloc: Global, words: &str, number: u32) -> Result<Reply, NoMemory>
    ensures { IfOk result (λ reply. reply ≡ refused_with words.now number) }
{
    let line = format!(in alloc; "refused {words}{number}\n")?;
    Ok(reply_with(Status::CodeRefused, line))
}

/// The same with two numbers, each behind words of its own.
pub fn refused_with_both(
    alloc: Global,
    words: &str,
    number: u32,
    more: &str,
    other: u32,
) -> Result<Reply, NoMemory>
    ensures { IfOk result (λ reply. reply ≡ refused_with_both words.now number more.now other) }
{
    let line = format!(in alloc; "refused {words}{number}{more}{other}\n")?;
    Ok(reply_with(Status::CodeRefused, line))
}
