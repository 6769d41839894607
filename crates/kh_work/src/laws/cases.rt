//! The cases of an answer that come before what a command tells, in their order: words that mean no
//! command, too many bytes, a text that is refused, a code that is refused, then what the command
//! itself refuses. `accepted_diagrams_are_answered_by_their_reduced_table` has the law of marks.

ghost use Rattle.std.specs.Prelude.{◌≡◌, ◌⊎◌, ◌<◌, ◌≤◌, ℕ, List, length, Err, IsTrue, Ok, Some, true};
ghost use Rattle.circle_smoothing.specs.GeneratorCounts.{generator_count};
ghost use Rattle.circle_smoothing.specs.declared.limits.TheConstants.{GENERATORS};
ghost use Rattle.cancel_log.specs.Verdicts.{IsVerdict};
ghost use Rattle.cancel_log.specs.declared.cause.LogCause.{LogCause};
ghost use Rattle.cancel_log.specs.declared.limits.TheConstants.{LOG_BYTES};
ghost use Rattle.cancel_log.specs.declared.stop.LogStop.{LogStop};
ghost use Rattle.kh_types.specs.Acceptance.{accepted, first_fault};
ghost use Rattle.kh_types.specs.Code.{Code};
ghost use Rattle.kh_types.specs.declared.fault.CodeFault.{CodeFault};
ghost use Rattle.kh_types.specs.declared.limits.TheConstants.{INPUT_BYTES};
ghost use Rattle.reduced_cube.specs.Reduced.{is_mark};
ghost use Rattle.undo_stack.specs.EditScript.{IsEdit};
ghost use Rattle.undo_stack.specs.Schedule.{IsSchedule};
ghost use Rattle.undo_stack.specs.declared.limits.TheConstants.{SCRIPT_LINES};
ghost use Rattle.undo_stack.specs.declared.schedule.ScheduleLine.{ScheduleLine};
ghost use Rattle.undo_stack.specs.declared.stop.ScriptStop.{ScriptStop};
ghost use Rattle.word_line.specs.Commands.{IsCommand, IsUsage};
ghost use Rattle.word_line.specs.declared.command.Command.{Command};
ghost use Rattle.word_line.specs.declared.command.Task.{Task};
ghost use Rattle.kh_inputs.specs.Inputs.{IsCodeRead};
ghost use Rattle.kh_inputs.specs.Parts.{code_part, part_behind};
ghost use Rattle.kh_inputs.specs.CodeRefusals.{IsFaultRefusal};
ghost use Rattle.kh_runs.specs.Refusals.{refused_line, refused_log_line, too_many_bytes, too_many_lines, usage};
ghost use Rattle.kh_replies.specs.Limits.{too_many_generators};
ghost use Rattle.kh_runs.specs.Replies.{Reply};
ghost use Rattle.kh_work.specs.Answer.{IsAnswer};
ghost use Rattle.kh_work.specs.ByteLimits.{byte_limit};
ghost use Rattle.kh_work.specs.Orders.{order_of};
ghost use Rattle.kh_work.specs.Verify.{cause_word};
ghost use Rattle.kh_work.specs.declared.order.CodeOrder.{CodeOrder};
ghost use Rattle.kh_work.specs.declared.order.Order.{Order};
ghost use Rattle.kh_work.specs.declared.order.ScriptOrder.{ScriptOrder};

/// Words that mean no command are answered by the usage line, whatever the bytes are.
pub fn other_words_are_answered_by_the_usage_line()
    ensures { (words : List (List ℕ)) (bytes : List ℕ) → IsUsage words → IsAnswer words bytes usage }
{}

/// Words that mean a command which reads, and more bytes than it reads, are answered by that limit,
/// whatever the bytes are. It is that of logs where the command reads one, else that of inputs.
pub fn too_many_bytes_are_answered_by_their_limit()
    ensures answer { (words : List (List ℕ)) (bytes : List ℕ) (command : Command) (limit : ℕ)
        → IsCommand words command → byte_limit (order_of command) ≡ Some limit
        → limit < length bytes → IsAnswer words bytes (too_many_bytes limit) }
    ensures limits { (command : Command) (limit : ℕ) → byte_limit (order_of command) ≡ Some limit
        → (limit ≡ LOG_BYTES) ⊎ (limit ≡ INPUT_BYTES) }
{}

/// Words that mean a command which reads a code, and bytes whose text is refused, are answered by
/// that refusal; and bytes that are the text of a code which is refused by the line of its first
/// fault. Before a script, and before a second code, the text ends at the semicolon.
pub fn refused_codes_are_answered_by_their_refusal()
    ensures text { (words : List (List ℕ)) (bytes : List ℕ) (command : Command) (order : CodeOrder) (refusal : Reply)
        → IsCommand words command → order_of command ≡ Order.Code order
        → length bytes ≤ INPUT_BYTES → IsCodeRead bytes (Err refusal)
        → IsAnswer words bytes refusal }
    ensures code { (words : List (List ℕ)) (bytes : List ℕ) (command : Command) (order : CodeOrder)
        (code : Code) (fault : CodeFault) (refusal : Reply)
        → IsCommand words command → order_of command ≡ Order.Code order
        → length bytes ≤ INPUT_BYTES → IsCodeRead bytes (Ok code)
        → first_fault code ≡ Some fault → IsFaultRefusal fault refusal
        → IsAnswer words bytes refusal }
    ensures text_before { (words : List (List ℕ)) (bytes : List ℕ) (command : Command) (refusal : Reply)
        → IsCommand words command
        → ((order : ScriptOrder) × (order_of command ≡ Order.Script order)) ⊎ (order_of command ≡ Order.Pair)
        → length bytes ≤ INPUT_BYTES → IsCodeRead (code_part bytes) (Err refusal)
        → IsAnswer words bytes refusal }
    ensures code_before { (words : List (List ℕ)) (bytes : List ℕ) (command : Command) (code : Code)
        (fault : CodeFault) (refusal : Reply)
        → IsCommand words command
        → ((order : ScriptOrder) × (order_of command ≡ Order.Script order)) ⊎ (order_of command ≡ Order.Pair)
        → length bytes ≤ INPUT_BYTES → IsCodeRead (code_part bytes) (Ok code)
        → first_fault code ≡ Some fault → IsFaultRefusal fault refusal
        → IsAnswer words bytes refusal }
{}

/// Words that mean `schedule` or `edit`, and bytes with the code of an accepted diagram and a
/// script that is refused, are answered by the number of its first line that is none, or by the
/// limit on lines, however many generators there are.
pub fn refused_scripts_are_answered_by_their_line()
    ensures schedule { (words : List (List ℕ)) (bytes : List ℕ) (command : Command) (code : Code) (line : ℕ)
        → IsCommand words command → command.task ≡ Task.Schedule
        → length bytes ≤ INPUT_BYTES → IsCodeRead (code_part bytes) (Ok code) → IsTrue (accepted code)
        → IsSchedule (part_behind bytes) (Err (ScriptStop.Line line))
        → IsAnswer words bytes (refused_line line) }
    ensures schedule_limit { (words : List (List ℕ)) (bytes : List ℕ) (command : Command) (code : Code) (count : ℕ)
        → IsCommand words command → command.task ≡ Task.Schedule
        → length bytes ≤ INPUT_BYTES → IsCodeRead (code_part bytes) (Ok code) → IsTrue (accepted code)
        → IsSchedule (part_behind bytes) (Err (ScriptStop.LineLimit count))
        → IsAnswer words bytes (too_many_lines count SCRIPT_LINES) }
    ensures edit { (words : List (List ℕ)) (bytes : List ℕ) (command : Command) (code : Code) (line : ℕ)
        → IsCommand words command → command.task ≡ Task.Edit
        → length bytes ≤ INPUT_BYTES → IsCodeRead (code_part bytes) (Ok code) → IsTrue (accepted code)
        → IsEdit (part_behind bytes) (Err (ScriptStop.Line line))
        → IsAnswer words bytes (refused_line line) }
    ensures edit_limit { (words : List (List ℕ)) (bytes : List ℕ) (command : Command) (code : Code) (count : ℕ)
        → IsCommand words command → command.task ≡ Task.Edit
        → length bytes ≤ INPUT_BYTES → IsCodeRead (code_part bytes) (Ok code) → IsTrue (accepted code)
        → IsEdit (part_behind bytes) (Err (ScriptStop.LineLimit count))
        → IsAnswer words bytes (too_many_lines count SCRIPT_LINES) }
{}

/// Words that mean a command which makes a table, and bytes with the code of an accepted diagram
/// that has too many generators, are answered by their number and that limit: `reduced` where the
/// mark is one, and `schedule` where the script is read.
pub fn too_many_generators_are_answered_by_their_limit()
    ensures homology { (words : List (List ℕ)) (bytes : List ℕ) (command : Command) (code : Code)
        → IsCommand words command → command.task ≡ Task.Homology
        → length bytes ≤ INPUT_BYTES → IsCodeRead bytes (Ok code) → IsTrue (accepted code)
        → GENERATORS < generator_count code
        → IsAnswer words bytes (too_many_generators (generator_count code)) }
    ensures certify { (words : List (List ℕ)) (bytes : List ℕ) (command : Command) (code : Code)
        → IsCommand words command → command.task ≡ Task.Certify
        → length bytes ≤ INPUT_BYTES → IsCodeRead bytes (Ok code) → IsTrue (accepted code)
        → GENERATORS < generator_count code
        → IsAnswer words bytes (too_many_generators (generator_count code)) }
    ensures reduced { (words : List (List ℕ)) (bytes : List ℕ) (command : Command) (mark : ℕ) (code : Code)
        → IsCommand words command → command.task ≡ Task.Reduced → command.mark ≡ Some mark
        → length bytes ≤ INPUT_BYTES → IsCodeRead bytes (Ok code) → IsTrue (accepted code)
        → is_mark code mark ≡ true → GENERATORS < generator_count code
        → IsAnswer words bytes (too_many_generators (generator_count code)) }
    ensures schedule { (words : List (List ℕ)) (bytes : List ℕ) (command : Command) (code : Code)
        (script : List (ℕ × ScheduleLine))
        → IsCommand words command → command.task ≡ Task.Schedule
        → length bytes ≤ INPUT_BYTES → IsCodeRead (code_part bytes) (Ok code) → IsTrue (accepted code)
        → IsSchedule (part_behind bytes) (Ok script) → GENERATORS < generator_count code
        → IsAnswer words bytes (too_many_generators (generator_count code)) }
{}

/// Words that mean the command `verify`, and bytes that are no log, are answered by the number of
/// their first line that fails and the word of its cause, or by the number of generators of their
/// diagram, where these are too many.
pub fn refused_logs_are_answered_by_their_line()
    ensures line { (words : List (List ℕ)) (bytes : List ℕ) (command : Command) (line : ℕ) (cause : LogCause)
        → IsCommand words command → command.task ≡ Task.Verify → length bytes ≤ LOG_BYTES
        → IsVerdict bytes (Err (LogStop.Line line cause))
        → IsAnswer words bytes (refused_log_line line (cause_word cause)) }
    ensures limit { (words : List (List ℕ)) (bytes : List ℕ) (command : Command) (generators : ℕ)
        → IsCommand words command → command.task ≡ Task.Verify → length bytes ≤ LOG_BYTES
        → IsVerdict bytes (Err (LogStop.SizeLimit generators))
        → IsAnswer words bytes (too_many_generators generators) }
{}
