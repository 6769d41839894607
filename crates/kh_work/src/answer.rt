//! From words and the bytes of a source to the reply.

ghost use Rattle.std.specs.Prelude.{◌≡◌, ◌≢◌, ◌≤◌, ℕ, length, IfOk, None, OnOk, Some, Err};
ghost use Rattle.kh_io.specs.Faults.{Rose};
ghost use Rattle.kh_runs.specs.Statuses.{IsReplyStatus, IsWhole};
ghost use Rattle.kh_inputs.specs.DiagramReplies.{IsDiagramReply};
ghost use Rattle.kh_runs.specs.Told.{IsReadOut, IsTaken};
ghost use Rattle.kh_work.specs.Union.{IsUnionReply};
ghost use Rattle.kh_work.specs.Answer.{IsBlindReply, IsCodeReply, IsInputReply, IsScriptedReply, ReadsNothing, ReadsUpTo};
ghost use Rattle.kh_work.specs.ByteLimits.{AreWithin, byte_limit};
ghost use Rattle.kh_work.specs.Orders.{HasWorkers};
ghost use Rattle.kh_work.specs.Runs.{IsBlindAnswer};
ghost use Rattle.kh_work.specs.TableMakers.{IsTableMaker};
ghost use Rattle.kh_work.specs.Told.{AnswersOrder, AnswersWords};
ghost use Rattle.kh_types.specs.declared.limits.TheConstants.{INPUT_BYTES, LOOPS};
ghost use Rattle.word_line.specs.Commands.{IsUsage};

use crate::byte_limits::byte_limit;
use crate::commands::{
    reply_to_bench, reply_to_certify, reply_to_edit, reply_to_homology, reply_to_reduced,
    reply_to_schedule, reply_to_union, reply_to_verify,
};
use crate::order::{CodeOrder, Order, ScriptOrder, order_of};
use cube_signs::SmallDiagram;
use homology_tables::Table;
use kh_inputs::{InputStop, code_part, part_behind, read_diagram};
use kh_io::Source;
use kh_replies::{
    reply_to_check, reply_to_convert, reply_to_draw, reply_to_jones, reply_to_mirror,
    reply_to_reverse,
};
use kh_runs::{Input, Reply, ReplyStop, Status, read_input, usage};
use kh_types::{Diagram, NoMemory, Words};
use prime_field::FieldSize;
use std::alloc::Global;
use word_line::{WordStop, read_words};

/// The reply to words and a source, which is read where the words mean a command that reads; the
/// maker makes the homology table of `homology` and of `bench` for several workers.
pub fn reply_to<S: Source, M: Fn(FieldSize, u32, &SmallDiagram) -> Result<Table, NoMemory>>(
    alloc: Global,
    words: &Words,
    source: &mut S,
    maker: &M,
) -> Result<Reply, ReplyStop>
    requires { IsTableMaker M.Fn maker.now }
    ensures answered { IfOk result (AnswersWords words.now (S.left source.old)) }
    ensures blind { ReadsNothing words.now → IfOk result (IsBlindAnswer words.now) }
    ensures whole { IfOk result (λ reply. IsWhole reply.status) }
    ensures usage_only { IfOk result (λ reply. reply.status ≡ Status.Usage → IsUsage words.now) }
    ensures unread { ReadsNothing words.now → source.new ≡ source.old }
    ensures taken { IsTaken (S.left source.old) (S.left source.new) }
    ensures read_out { (limit : ℕ) → ReadsUpTo words.now limit
        → OnOk result (IsReadOut limit (S.left source.old) (S.left source.new)) }
    ensures fault { result ≡ Err ReplyStop.ReadFault
        → Rose (S.faults source.old) (S.faults source.new) }
    ensures stayed { result ≢ Err ReplyStop.ReadFault
        → S.faults source.new ≡ S.faults source.old }
{
    match read_words(alloc, words) {
        Ok(command) => reply_to_order(alloc, order_of(command), source, maker),
        Err(WordStop::Usage) => Ok(usage(alloc)?),
        Err(WordStop::NoMemory) => Err(ReplyStop::NoMemory),
    }
}

/// The reply of an order to a source, which is read where the order reads.
fn reply_to_order<S: Source, M: Fn(FieldSize, u32, &SmallDiagram) -> Result<Table, NoMemory>>(
    alloc: Global,
    order: Order,
    source: &mut S,
    maker: &M,
) -> Result<Reply, ReplyStop>
    requires maker { IsTableMaker M.Fn maker.now }
    requires workers { HasWorkers order }
    ensures answered { IfOk result (AnswersOrder order (S.left source.old)) }
    ensures blind { byte_limit order ≡ None → IfOk result (IsBlindReply order) }
    ensures status { IfOk result (λ reply. IsReplyStatus reply.status) }
    ensures unread { byte_limit order ≡ None → source.new ≡ source.old }
    ensures taken { IsTaken (S.left source.old) (S.left source.new) }
    ensures read_out { (limit : ℕ) → byte_limit order ≡ Some limit
        → OnOk result (IsReadOut limit (S.left source.old) (S.left source.new)) }
    ensures fault { result ≡ Err ReplyStop.ReadFault
        → Rose (S.faults source.old) (S.faults source.new) }
    ensures stayed { result ≢ Err ReplyStop.ReadFault
        → S.faults source.new ≡ S.faults source.old }
{
    match byte_limit(order) {
        None => Ok(reply_to_bytes(alloc, order, &[], maker)?),
        Some(limit) => match read_input(alloc, source, limit)? {
            Input::Bytes(bytes) => Ok(reply_to_bytes(alloc, order, &bytes, maker)?),
            Input::Refused(reply) => Ok(reply),
        },
    }
}

/// The reply of an order to the bytes of an input, which do not matter where it reads nothing.
fn reply_to_bytes<M: Fn(FieldSize, u32, &SmallDiagram) -> Result<Table, NoMemory>>(
    alloc: Global,
    order: Order,
    bytes: &[u8],
    maker: &M,
) -> Result<Reply, NoMemory>
    requires maker { IsTableMaker M.Fn maker.now }
    requires few { AreWithin (byte_limit order) bytes.now }
    requires workers { HasWorkers order }
    ensures reply { IfOk result (IsInputReply order bytes.now) }
    ensures blind { byte_limit order ≡ None → IfOk result (IsBlindReply order) }
    ensures status { IfOk result (λ reply. IsReplyStatus reply.status) }
{
    match order {
        Order::Code(order) => reply_to_code(alloc, order, bytes, maker),
        Order::Script(order) => reply_to_texts(alloc, order, code_part(bytes), part_behind(bytes)),
        Order::Pair => reply_to_pair(alloc, code_part(bytes), part_behind(bytes)),
        Order::Log => reply_to_verify(alloc, bytes),
        Order::Bench {
            field,
            workers,
            number,
        } => reply_to_bench(alloc, field, workers, number, maker),
    }
}

/// The reply of an order to the text of a code.
fn reply_to_code<M: Fn(FieldSize, u32, &SmallDiagram) -> Result<Table, NoMemory>>(
    alloc: Global,
    order: CodeOrder,
    text: &[u8],
    maker: &M,
) -> Result<Reply, NoMemory>
    requires maker { IsTableMaker M.Fn maker.now }
    requires few { length text.now ≤ INPUT_BYTES }
    requires workers { HasWorkers (Order.Code order) }
    ensures { IfOk result (IsDiagramReply (IsCodeReply order) text.now) }
{
    match read_diagram(alloc, text) {
        Ok(diagram) => reply_to_diagram(alloc, order, &diagram, maker),
        Err(InputStop::Refused(reply)) => Ok(reply),
        Err(InputStop::NoMemory) => Err(NoMemory),
    }
}

/// The reply of an order to a diagram.
fn reply_to_diagram<M: Fn(FieldSize, u32, &SmallDiagram) -> Result<Table, NoMemory>>(
    alloc: Global,
    order: CodeOrder,
    diagram: &Diagram,
    maker: &M,
) -> Result<Reply, NoMemory>
    requires maker { IsTableMaker M.Fn maker.now }
    requires loops { diagram.now.loops ≤ LOOPS }
    requires workers { HasWorkers (Order.Code order) }
    ensures { IfOk result (IsCodeReply order diagram.now) }
{
    match order {
        CodeOrder::Homology { field, workers } => {
            reply_to_homology(alloc, field, workers, diagram, maker)
        }
        CodeOrder::Jones => reply_to_jones(alloc, diagram),
        CodeOrder::Check => reply_to_check(alloc, diagram),
        CodeOrder::Convert { to } => reply_to_convert(alloc, to, diagram),
        CodeOrder::Draw => reply_to_draw(alloc, diagram),
        CodeOrder::Certify { field } => { reply_to_certify(alloc, field, diagram) }
        CodeOrder::Reduced { field, mark } => { reply_to_reduced(alloc, field, mark, diagram) }
        CodeOrder::Mirror => reply_to_mirror(alloc, diagram),
        CodeOrder::Reverse => reply_to_reverse(alloc, diagram),
    }
}

/// The reply of an order to the text of a code and that of a script.
fn reply_to_texts(
    alloc: Global,
    order: ScriptOrder,
    text: &[u8],
    script: &[u8],
) -> Result<Reply, NoMemory>
    requires few { length text.now ≤ INPUT_BYTES }
    requires short { length script.now ≤ INPUT_BYTES }
    ensures { IfOk result (IsDiagramReply (IsScriptedReply order script.now) text.now) }
{
    match read_diagram(alloc, text) {
        Ok(diagram) => reply_to_script(alloc, order, &diagram, script),
        Err(InputStop::Refused(reply)) => Ok(reply),
        Err(InputStop::NoMemory) => Err(NoMemory),
    }
}

/// The reply of an order to a diagram and the text of a script.
fn reply_to_script(
    alloc: Global,
    order: ScriptOrder,
    diagram: &Diagram,
    script: &[u8],
) -> Result<Reply, NoMemory>
    requires short { length script.now ≤ INPUT_BYTES }
    ensures { IfOk result (IsScriptedReply order script.now diagram.now) }
{
    match order {
        ScriptOrder::Edit => reply_to_edit(alloc, diagram, script),
        ScriptOrder::Schedule { field } => reply_to_schedule(alloc, field, diagram, script),
    }
}

/// The reply of `union` to the texts of two codes.
fn reply_to_pair(alloc: Global, text: &[u8], second: &[u8]) -> Result<Reply, NoMemory>
    requires few { length text.now ≤ INPUT_BYTES }
    requires short { length second.now ≤ INPUT_BYTES }
    ensures { IfOk result (IsDiagramReply (λ code. IsUnionReply code second.now) text.now) }
{
    match read_diagram(alloc, text) {
        Ok(diagram) => reply_to_union(alloc, &diagram, second),
        Err(InputStop::Refused(reply)) => Ok(reply),
        Err(InputStop::NoMemory) => Err(NoMemory),
    }
}
