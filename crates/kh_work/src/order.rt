//! What a command orders: what is to be done, with all that it needs.

ghost use Rattle.std.specs.Prelude.{◌≡◌};
ghost use Rattle.kh_work.specs.Orders.{HasWorkers, order_of};
ghost use Rattle.word_line.specs.Values.{AreWorkers};

use prime_field::FieldSize;
use word_line::{Command, Form, Task};

/// What is to be done, by what is read for it, with all that it needs.
#[derive(Clone, Copy)]
pub enum Order {
    /// A code is read, and this is written of its diagram.
    Code(CodeOrder),
    /// A code is read, and behind its first semicolon a script, and this is written of both.
    Script(ScriptOrder),
    /// A code is read, and behind its first semicolon a second one; write the disjoint union of
    /// their diagrams.
    Pair,
    /// A log of cancellations is read; write the homology table that it proves, or the first line
    /// that fails.
    Log,
    /// Nothing is read; write the counts, the dimension and the Jones polynomial of the diagram of
    /// a number.
    Bench {
        field: FieldSize,
        workers: u32,
        number: u32,
    },
}

/// What is written of a diagram.
#[derive(Clone, Copy)]
pub enum CodeOrder {
    /// The homology table, and the Jones polynomial.
    Homology { field: FieldSize, workers: u32 },
    /// The Jones polynomial.
    Jones,
    /// Its counts.
    Check,
    /// Its text in a form.
    Convert { to: Form },
    /// A drawing.
    Draw,
    /// A log of cancellations.
    Certify { field: FieldSize },
    /// The table of reduced homology at a mark, and the Jones polynomial.
    Reduced { field: FieldSize, mark: u8 },
    /// Its mirror image.
    Mirror,
    /// Its reversal.
    Reverse,
}

/// What is written of a diagram and a script.
#[derive(Clone, Copy)]
pub enum ScriptOrder {
    /// The diagram after each line.
    Edit,
    /// What workers are answered, the homology table, and the Jones polynomial.
    Schedule { field: FieldSize },
}

/// What a command orders. Where it lacks the number or the mark that its task needs 0 stands for
/// it, but no words mean such a command.
pub fn order_of(command: Command) -> Order
    ensures order { result ≡ order_of command }
    ensures workers { AreWorkers command.workers → HasWorkers result }
{
    let field = command.field;
    let workers = command.workers;
    match command.task {
        Task::Homology => Order::Code(CodeOrder::Homology { field, workers }),
        Task::Jones => Order::Code(CodeOrder::Jones),
        Task::Check => Order::Code(CodeOrder::Check),
        Task::Convert => Order::Code(CodeOrder::Convert { to: command.to }),
        Task::Draw => Order::Code(CodeOrder::Draw),
        Task::Certify => Order::Code(CodeOrder::Certify { field }),
        Task::Reduced => Order::Code(CodeOrder::Reduced {
            field,
            mark: command.mark.unwrap_or(0),
        }),
        Task::Mirror => Order::Code(CodeOrder::Mirror),
        Task::Reverse => Order::Code(CodeOrder::Reverse),
        Task::Edit => Order::Script(ScriptOrder::Edit),
        Task::Schedule => Order::Script(ScriptOrder::Schedule { field }),
        Task::Union => Order::Pair,
        Task::Verify => Order::Log,
        Task::Bench => Order::Bench {
            field,
            workers,
            number: command.number.unwrap_or(0),
        },
    }
}
