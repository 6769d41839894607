//! Why a text is no code, or which rule its code breaks.

ghost use Rattle.std.specs.Prelude.{◌≡◌, IfOk};
ghost use Rattle.kh_inputs.specs.CodeRefusals.{IsPdRefusal, IsGaussRefusal, IsJsonRefusal, IsFaultRefusal, IsTextFault};

use gauss_code::GaussStop;
use json_code::JsonStop;
use kh_runs::{
    Reply, Status, fixed_reply, refused_with, refused_with_both, too_many_crossings, too_many_loops,
};
use kh_types::{CodeFault, NoMemory};
use pd_code::PdStop;
use std::alloc::Global;

/// The reply to a PD text that is read as no code.
pub fn pd_refusal(alloc: Global, stop: PdStop) -> Result<Reply, NoMemory>
    ensures { IfOk result (λ reply. IsPdRefusal stop reply) }
{
    match stop {
        PdStop::Text { place } => refused_with(alloc, "text at ", place),
        PdStop::Number { place } => refused_with(alloc, "number at ", place),
        PdStop::CrossingLimit { count } => too_many_crossings(alloc, count),
        PdStop::LoopLimit { count } => too_many_loops(alloc, count),
        PdStop::NoMemory => Err(NoMemory),
    }
}

/// The reply to a signed Gauss text that is read as no code.
pub fn gauss_refusal(alloc: Global, stop: GaussStop) -> Result<Reply, NoMemory>
    ensures { IfOk result (λ reply. IsGaussRefusal stop reply) }
{
    match stop {
        GaussStop::Text { place } => refused_with(alloc, "text at ", place),
        GaussStop::Number { place } => refused_with(alloc, "number at ", place),
        GaussStop::CrossingLimit { count } => too_many_crossings(alloc, count),
        GaussStop::LoopLimit { count } => too_many_loops(alloc, count),
        GaussStop::Label { place } => refused_with(alloc, "label at ", place),
        GaussStop::NoSigns => fixed_reply(alloc, Status::CodeRefused, "refused no signs\n"),
        GaussStop::SignCount { found, wanted } => {
            refused_with_both(alloc, "signs ", found, " wanted ", wanted)
        }
        GaussStop::NoMemory => Err(NoMemory),
    }
}

/// The reply to a JSON text that is read as no code.
pub fn json_refusal(alloc: Global, stop: JsonStop) -> Result<Reply, NoMemory>
    ensures { IfOk result (λ reply. IsJsonRefusal stop reply) }
{
    match stop {
        JsonStop::JsonText => fixed_reply(alloc, Status::CodeRefused, "refused json\n"),
        JsonStop::Shape { crossing, slot } => {
            refused_with_both(alloc, "shape at crossing ", crossing, " slot ", slot.into())
        }
        JsonStop::CrossingLimit { count } => too_many_crossings(alloc, count),
        JsonStop::NoMemory => Err(NoMemory),
    }
}

/// The reply to the code of a text, which breaks a rule of acceptance.
pub fn fault_refusal(alloc: Global, fault: CodeFault) -> Result<Reply, NoMemory>
    requires { IsTextFault fault }
    ensures { IfOk result (λ reply. IsFaultRefusal fault reply) }
{
    match fault {
        CodeFault::ArcRange { crossing, slot } => {
            refused_with_both(
                alloc,
                "arc range at crossing ",
                crossing.into(),
                " slot ",
                slot.into(),
            )
        }
        CodeFault::ArcTimes { arc, times } => {
            refused_with_both(alloc, "arc ", arc.into(), " times ", times.into())
        }
        CodeFault::Interval { arc } => refused_with(alloc, "interval of arc ", arc.into()),
        CodeFault::Under { crossing } => {
            refused_with(alloc, "under pass at crossing ", crossing.into())
        }
        CodeFault::Over { crossing } => {
            refused_with(alloc, "over pass at crossing ", crossing.into())
        }
        CodeFault::TwoArc { crossing } => {
            refused_with(alloc, "two-arc component at crossing ", crossing.into())
        }
        CodeFault::Checkerboard { arc } => {
            refused_with(alloc, "checkerboard at arc ", arc.into())
        }
        CodeFault::Genus { faces, wanted } => {
            refused_with_both(
                alloc,
                "genus faces ",
                faces.into(),
                " wanted ",
                wanted.into(),
            )
        }
        CodeFault::Components { .. } => unreachable!(),
    }
}
