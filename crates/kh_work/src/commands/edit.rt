//! The command `edit`: the diagram after each line of a script, up to the first that is refused.

ghost use Rattle.std.specs.Prelude.{◌≡◌, ◌≤◌, ◌++◌, IfOk, OnOk, Ok, Err, length, true, false};
ghost use Rattle.kh_types.specs.declared.limits.TheConstants.{INPUT_BYTES};
ghost use Rattle.undo_stack.specs.EditRuns.{after_line};
ghost use Rattle.undo_stack.specs.declared.edit_run.EditFault.{EditFault};
ghost use Rattle.kh_work.specs.Edit.{IsEditReply, diagram_line, edit_reply, numbered_line, refusal_line};

use super::edit_refusals::edit_refusal;
use kh_runs::{Reply, Status, refused_line, reply_made, too_many_lines};
use kh_types::{Diagram, NoMemory};
use pd_code::print_pd;
use std::alloc::Global;
use undo_stack::{EditFault, EditLine, Editor, SCRIPT_LINES, ScriptStop, carry_out, read_edit};

/// The reply to a diagram and the text of a script: the diagram after each line that has words, up
/// to the first that is refused.
pub fn reply_to_edit(alloc: Global, diagram: &Diagram, script: &[u8]) -> Result<Reply, NoMemory>
    requires short { length script.now ≤ INPUT_BYTES }
    ensures { IfOk result (λ reply. IsEditReply diagram.now script.now reply) }
{
    match read_edit(alloc, script) {
        Ok(script) => reply_to_lines(alloc, diagram, &script.lines),
        Err(ScriptStop::LineLimit { count }) => too_many_lines(alloc, count, SCRIPT_LINES),
        Err(ScriptStop::Line { line }) => refused_line(alloc, line),
        Err(ScriptStop::NoMemory) => Err(NoMemory),
    }
}

/// The reply to the lines of a script.
fn reply_to_lines(
    alloc: Global,
    diagram: &Diagram,
    script: &[(u32, EditLine)],
) -> Result<Reply, NoMemory>
    ensures { IfOk result (λ reply. reply ≡ edit_reply diagram.now script.now) }
{
    let mut editor = Editor::new(alloc, *diagram)?;
    let mut text = Vec::new(alloc);
    'lines: for at in 0..script.len() {
        let done = push_outcome(alloc, &mut text, &mut editor, script[at])?;
        if !done {
            return Ok(reply_made(Status::MoveRefused, text));
        }
    }
    Ok(reply_made(Status::Done, text))
}

/// Carries out a line, and adds the diagram after it, or why it is refused; answers whether it is
/// done.
fn push_outcome(
    alloc: Global,
    text: &mut Vec<u8>,
    editor: &mut Editor,
    line: (u32, EditLine),
) -> Result<bool, NoMemory>
    ensures done { result ≡ Ok true → (after_line line.1 editor.old ≡ Ok editor.new)
        × (text.new.items ≡ text.old.items ++ diagram_line line.0 editor.new.diagram) }
    ensures refused { result ≡ Ok false → (fault : EditFault)
        × (after_line line.1 editor.old ≡ Err fault)
        × (text.new.items ≡ text.old.items ++ refusal_line line.0 fault) }
{
    let (number, line) = line;
    match carry_out(editor, line) {
        Ok(()) => {
            push_diagram(alloc, text, number, editor.diagram())?;
            Ok(true)
        }
        Err(fault) => {
            push_refusal(alloc, text, number, fault)?;
            Ok(false)
        }
    }
}

/// Adds the line of a diagram.
fn push_diagram(
    alloc: Global,
    text: &mut Vec<u8>,
    number: u32,
    diagram: &Diagram,
) -> Result<(), NoMemory>
    ensures { OnOk result (text.new.items ≡ text.old.items ++ diagram_line number diagram.now) }
{
    let words = print_pd(alloc, diagram)?;
    push_line(alloc, text, number, &words)
}

/// Adds the line that is refused.
fn push_refusal(
    alloc: Global,
    text: &mut Vec<u8>,
    number: u32,
    fault: EditFault,
) -> Result<(), NoMemory>
    ensures { OnOk result (text.new.items ≡ text.old.items ++ refusal_line number fault) }
{
    let reason = edit_refusal(alloc, fault)?;
    let words = format!(in alloc; "refused {reason}")?;
    push_line(alloc, text, number, words.as_bytes())
}

/// Adds a line: a number, a space and words.
fn push_line(alloc: Global, text: &mut Vec<u8>, number: u32, words: &[u8]) -> Result<(), NoMemory>
    ensures { OnOk result (text.new.items ≡ text.old.items ++ numbered_line number words.now) }
{
    let head = format!(in alloc; "{number} ")?;
    text.extend_from_slice(head.as_bytes())?;
    text.extend_from_slice(words)?;
    text.push(b'\n')?;
    Ok(())
}
