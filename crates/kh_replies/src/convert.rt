//! The command `convert`: the diagram in another form.

ghost use Rattle.std.specs.Prelude.{◌≡◌, IfOk};
ghost use Rattle.kh_replies.specs.Convert.{convert_reply, text_in};

use gauss_code::print_gauss;
use kh_runs::{Reply, Status, reply_made};
use kh_types::{Diagram, NoMemory};
use pd_code::print_pd;
use std::alloc::Global;
use word_line::Form;

/// The text of a diagram in a form, and a line feed.
pub fn reply_to_convert(alloc: Global, form: Form, diagram: &Diagram) -> Result<Reply, NoMemory>
    ensures { IfOk result (λ reply. reply ≡ convert_reply form diagram.now) }
{
    let mut text = text_in(alloc, form, diagram)?;
    text.push(b'\n')?;
    Ok(reply_made(Status::Done, text))
}

/// The text of a diagram in a form.
fn text_in(alloc: Global, form: Form, diagram: &Diagram) -> Result<Vec<u8>, NoMemory>
    ensures { IfOk result (λ text. text.items ≡ text_in form diagram.now) }
{
    match form {
        Form::Pd => print_pd(alloc, diagram),
        Form::Gauss => print_gauss(alloc, diagram),
    }
}
