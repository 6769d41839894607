//! What the program of scans answers, beside what `kh` answers.

ghost use Rattle.std.specs.Prelude.{◌≡◌, ◌≤◌, ℕ, List};
ghost use Rattle.circle_smoothing.specs.GeneratorCounts.{generator_count};
ghost use Rattle.circle_smoothing.specs.declared.limits.TheConstants.{GENERATORS};
ghost use Rattle.kh_types.specs.Code.{Code};
ghost use Rattle.word_line.specs.declared.command.Command.{Command};
ghost use Rattle.word_line.specs.declared.command.Task.{Task};
ghost use Rattle.word_line.specs.declared.scan_command.ScanCommand.TheVariants.{Alone};
ghost use Rattle.word_line.specs.Commands.{IsCommand};
ghost use Rattle.word_line.specs.ScanCommands.{IsScanCommand};
ghost use Rattle.kh_runs.specs.Replies.{Reply};
ghost use Rattle.kh_inputs.specs.Inputs.{IsDiagramText};
ghost use Rattle.line_answers.specs.Scans.{IsScanAnswer};
ghost use Rattle.kh_work.specs.Answer.{IsAnswer};

/// The answer to one diagram is that of `kh homology` over the same field, unless the input is the
/// text of an accepted diagram whose cube has more generators than that takes.
pub fn scans_answer_as_cubes()
    ensures { (words others : List (List ℕ)) (command : Command) (bytes : List ℕ) (reply : Reply)
        → IsScanCommand words (Alone command.field) → IsCommand others command → command.task ≡ Task.Homology
        → ((code : Code) → IsDiagramText bytes code → generator_count code ≤ GENERATORS)
        → IsAnswer others bytes reply → IsScanAnswer words bytes reply }
{}
