//! From the bytes of an input to a diagram, or to the reply that refuses them.

ghost use Rattle.std.specs.Prelude.{◌≡◌, ◌≤◌, length, IfOk, IfErr, Ok, Err};
ghost use Rattle.kh_runs.specs.Replies.{Reply};
ghost use Rattle.kh_inputs.specs.Inputs.{first_byte, input_form, IsPdRead, IsGaussRead, IsJsonRead, IsCodeRead, IsDiagramRead};
ghost use Rattle.kh_inputs.specs.InputStops.{StopsWith};
ghost use Rattle.kh_types.specs.declared.limits.TheConstants.{LOOPS};

use crate::code_refusals::{fault_refusal, gauss_refusal, json_refusal, pd_refusal};
use gauss_code::read_gauss;
use json_code::read_json;
use kh_lex::is_blank;
use kh_runs::Reply;
use kh_types::{Diagram, INPUT_BYTES, NoMemory, RawCode};
use pd_code::read_pd;
use std::alloc::Global;

/// A form in which an input gives a code.
#[derive(Clone, Copy)]
pub enum InputForm {
    /// A planar diagram text.
    Pd,
    /// A signed Gauss text.
    Gauss,
    /// A JSON text.
    Json,
}

/// Why an input gives no diagram.
#[derive(Debug, Drop)]
pub enum InputStop {
    /// It is refused with this reply.
    Refused(Reply),
    /// The run is out of memory, whatever the input is.
    NoMemory,
}

impl From<NoMemory> for InputStop {
    ghost use Rattle.kh_inputs.specs.declared.input.InputStop.{InputStop};

    ghost from_gives = { λ _ stop. stop ≡ InputStop.NoMemory };

    fn from(_: NoMemory) -> Self {
        InputStop::NoMemory
    }
}

/// The diagram of the bytes of an input, which are the text of a code in one of the forms.
pub fn read_diagram(alloc: Global, bytes: &[u8]) -> Result<Diagram, InputStop>
    requires { length bytes.now ≤ INPUT_BYTES }
    ensures diagram { IfOk result (λ code. IsDiagramRead bytes.now (Ok code)) }
    ensures loops { IfOk result (λ code. code.loops ≤ LOOPS) }
    ensures refused { IfErr result (StopsWith (λ reply. IsDiagramRead bytes.now (Err reply))) }
{
    let raw = read_code(alloc, bytes)?;
    match Diagram::try_new(&raw) {
        Ok(diagram) => Ok(diagram),
        Err(fault) => Err(InputStop::Refused(fault_refusal(alloc, fault)?)),
    }
}

/// The code that bytes are the text of.
fn read_code(alloc: Global, bytes: &[u8]) -> Result<RawCode, InputStop>
    requires { length bytes.now ≤ INPUT_BYTES }
    ensures code { IfOk result (λ code. IsCodeRead bytes.now (Ok code)) }
    ensures loops { IfOk result (λ code. code.loops ≤ LOOPS) }
    ensures refused { IfErr result (StopsWith (λ reply. IsCodeRead bytes.now (Err reply))) }
{
    match input_form(bytes) {
        InputForm::Pd => read_pd_code(alloc, bytes),
        InputForm::Gauss => read_gauss_code(alloc, bytes),
        InputForm::Json => read_json_code(alloc, bytes),
    }
}

/// The form of an input.
fn input_form(bytes: &[u8]) -> InputForm
    ensures { result ≡ input_form bytes.now }
{
    match first_byte(bytes) {
        Some(b'[') => InputForm::Json,
        Some(b'G') => InputForm::Gauss,
        _ => InputForm::Pd,
    }
}

/// The first byte that is no blank.
fn first_byte(bytes: &[u8]) -> Option<u8>
    ensures { result ≡ first_byte bytes.now }
{
    bytes.iter().copied().find(|byte| !is_blank(*byte))
}

/// The code of a JSON text.
fn read_json_code(alloc: Global, bytes: &[u8]) -> Result<RawCode, InputStop>
    requires { length bytes.now ≤ INPUT_BYTES }
    ensures code { IfOk result (λ code. IsJsonRead bytes.now (Ok code)) }
    ensures loops { IfOk result (λ code. code.loops ≤ LOOPS) }
    ensures refused { IfErr result (StopsWith (λ reply. IsJsonRead bytes.now (Err reply))) }
{
    match read_json(alloc, bytes) {
        Ok(raw) => Ok(raw),
        Err(stop) => Err(InputStop::Refused(json_refusal(alloc, stop)?)),
    }
}

/// The code of a signed Gauss text.
fn read_gauss_code(alloc: Global, bytes: &[u8]) -> Result<RawCode, InputStop>
    requires { length bytes.now ≤ INPUT_BYTES }
    ensures code { IfOk result (λ code. IsGaussRead bytes.now (Ok code)) }
    ensures loops { IfOk result (λ code. code.loops ≤ LOOPS) }
    ensures refused { IfErr result (StopsWith (λ reply. IsGaussRead bytes.now (Err reply))) }
{
    match read_gauss(alloc, bytes) {
        Ok(raw) => Ok(raw),
        Err(stop) => Err(InputStop::Refused(gauss_refusal(alloc, stop)?)),
    }
}

/// The code of a PD text.
fn read_pd_code(alloc: Global, bytes: &[u8]) -> Result<RawCode, InputStop>
    requires { length bytes.now ≤ INPUT_BYTES }
    ensures code { IfOk result (λ code. IsPdRead bytes.now (Ok code)) }
    ensures loops { IfOk result (λ code. code.loops ≤ LOOPS) }
    ensures refused { IfErr result (StopsWith (λ reply. IsPdRead bytes.now (Err reply))) }
{
    match read_pd(alloc, bytes) {
        Ok(raw) => Ok(raw),
        Err(stop) => Err(InputStop::Refused(pd_refusal(alloc, stop)?)),
    }
}
