//! What the values of options mean.

ghost use Rattle.std.specs.Prelude.{◌≡◌};
ghost use Rattle.word_line.specs.Reading.{command_given, field_in, field_of, finished, form_in, form_of, mark_given, number_given, value_mark, value_number, task_of, word_behind, workers_in, workers_of};

use crate::command::{Command, Form, Task};
use crate::limits::{MARK_DIGITS, MARK_LIMIT, NUMBER_DIGITS, WORKERS_DIGITS};
use kh_lex::number_of;
use kh_types::WORKERS;
use prime_field::FieldSize;

/// The texts that a line gives: its one positional, and the values of its options.
#[derive(Clone, Copy)]
pub struct Given<'a> {
    /// The positional.
    pub task: Option<&'a str>,
    /// The value of `--field`.
    pub field: Option<&'a str>,
    /// The value of `--workers`.
    pub workers: Option<&'a str>,
    /// The value of `--to`.
    pub to: Option<&'a str>,
    /// The value of `--number`.
    pub number: Option<&'a str>,
    /// The value of `--mark`.
    pub mark: Option<&'a str>,
}

/// The command of the texts that a line gives.
pub fn command_given(given: &Given<'_>) -> Option<Command>
    ensures { result ≡ command_given (word_behind given.now.task) (word_behind given.now.field)
        (word_behind given.now.workers) (word_behind given.now.to) (word_behind given.now.number)
        (word_behind given.now.mark) }
{
    let task = task_of(given.task?)?;
    let field = field_in(given.field)?;
    let workers = workers_in(given.workers)?;
    let to = form_in(given.to)?;
    let number = number_given(given.number)?;
    let mark = mark_given(given.mark)?;
    finished(Command {
        task,
        field,
        workers,
        to,
        number,
        mark,
    })
}

/// A command, unless it lacks the number or the mark that its task needs.
fn finished(command: Command) -> Option<Command>
    ensures { result ≡ finished command }
{
    match (command.task, command.number, command.mark) {
        (Task::Bench, None, _) | (Task::Reduced, _, None) => None,
        _ => Some(command),
    }
}

/// The task of a name.
fn task_of(name: &str) -> Option<Task>
    ensures { result ≡ task_of name.now }
{
    match name {
        "homology" => Some(Task::Homology),
        "jones" => Some(Task::Jones),
        "check" => Some(Task::Check),
        "convert" => Some(Task::Convert),
        "edit" => Some(Task::Edit),
        "draw" => Some(Task::Draw),
        "schedule" => Some(Task::Schedule),
        "bench" => Some(Task::Bench),
        "certify" => Some(Task::Certify),
        "verify" => Some(Task::Verify),
        "reduced" => Some(Task::Reduced),
        "mirror" => Some(Task::Mirror),
        "reverse" => Some(Task::Reverse),
        "union" => Some(Task::Union),
        _ => None,
    }
}

/// The field of a value; of two elements where there is none.
pub(crate) fn field_in(value: Option<&str>) -> Option<FieldSize>
    ensures { result ≡ field_in (word_behind value.entry) }
{
    match value {
        Some(value) => field_of(value),
        None => Some(FieldSize::TWO),
    }
}

/// The number of elements that a value writes.
pub(crate) fn field_of(value: &str) -> Option<FieldSize>
    ensures { result ≡ field_of value.now }
{
    match value {
        "2" => Some(FieldSize::TWO),
        "3" => Some(FieldSize::THREE),
        "5" => Some(FieldSize::FIVE),
        "7" => Some(FieldSize::SEVEN),
        _ => None,
    }
}

/// The number of workers of a value; one where there is none.
fn workers_in(value: Option<&str>) -> Option<u32>
    ensures { result ≡ workers_in (word_behind value.entry) }
{
    match value {
        Some(value) => workers_of(value),
        None => Some(1),
    }
}

/// The number of workers that a value writes.
fn workers_of(value: &str) -> Option<u32>
    ensures { result ≡ workers_of value.now }
{
    let count = number_of(value.as_bytes(), WORKERS_DIGITS)?;
    if 1 <= count && count <= WORKERS {
        Some(count)
    } else {
        None
    }
}

/// The form of a value; that of planar diagram texts where there is none.
fn form_in(value: Option<&str>) -> Option<Form>
    ensures { result ≡ form_in (word_behind value.entry) }
{
    match value {
        Some(value) => form_of(value),
        None => Some(Form::Pd),
    }
}

/// The form that a value names.
fn form_of(value: &str) -> Option<Form>
    ensures { result ≡ form_of value.now }
{
    match value {
        "pd" => Some(Form::Pd),
        "gauss" => Some(Form::Gauss),
        _ => None,
    }
}

/// The number of a value; none where there is no value.
fn number_given(value: Option<&str>) -> Option<Option<u32>>
    ensures { result ≡ number_given (word_behind value.entry) }
{
    match value {
        Some(value) => value_number(value),
        None => Some(None),
    }
}

/// The number that a value writes.
fn value_number(value: &str) -> Option<Option<u32>>
    ensures { result ≡ value_number value.now }
{
    let number = number_of(value.as_bytes(), NUMBER_DIGITS)?;
    Some(Some(number))
}

/// The mark of a value; none where there is no value.
fn mark_given(value: Option<&str>) -> Option<Option<u8>>
    ensures { result ≡ mark_given (word_behind value.entry) }
{
    match value {
        Some(value) => value_mark(value),
        None => Some(None),
    }
}

/// The mark that a value writes.
fn value_mark(value: &str) -> Option<Option<u8>>
    ensures { result ≡ value_mark value.now }
{
    let mark = number_of(value.as_bytes(), MARK_DIGITS)?;
    if mark <= MARK_LIMIT {
        Some(Some(mark as u8))
    } else {
        None
    }
}
