//! Laws of the definitions: each is the contract of a function that does nothing.

pub mod cases;
pub mod printed;

ghost use Rattle.std.specs.Prelude.{◌≡◌, ◌≢◌, ◌<◌, ◌≤◌, ◌++◌, ℕ, List, [], codes, length};
ghost use Rattle.std.specs.Prelude.{Err, IsTrue, Ok, Some, false, true};
ghost use Rattle.std.specs.Prelude.{◌+ℤ◌, ◌-ℤ◌, ℤ, pos};
ghost use Rattle.std.specs.Fmt.{decimal};
ghost use Rattle.circle_smoothing.specs.GeneratorCounts.{generator_count};
ghost use Rattle.circle_smoothing.specs.declared.limits.TheConstants.{GENERATORS};
ghost use Rattle.cancel_log.specs.Verdicts.{IsLog};
ghost use Rattle.cancel_log.specs.declared.limits.TheConstants.{LOG_BYTES};
ghost use Rattle.commit_core.specs.Answering.{answers};
ghost use Rattle.kh_types.specs.Code.{Code};
ghost use Rattle.kh_types.specs.Acceptance.{accepted};
ghost use Rattle.kh_types.specs.Components.{component_count};
ghost use Rattle.kh_types.specs.Directions.{minus_count, plus_count};
ghost use Rattle.kh_types.specs.Faces.{face_count, piece_count};
ghost use Rattle.kh_types.specs.StateSum.{euler, polynomial_text, state_sum};
ghost use Rattle.kh_types.specs.Table.{table, table_text};
ghost use Rattle.kh_types.specs.declared.limits.TheConstants.{CROSSINGS, INPUT_BYTES, LOOPS};
ghost use Rattle.word_line.specs.declared.command.Command.{Command};
ghost use Rattle.word_line.specs.declared.command.Form.{Form};
ghost use Rattle.word_line.specs.declared.command.Task.{Task};
ghost use Rattle.kh_runs.specs.declared.status.Status.{Status};
ghost use Rattle.kh_runs.specs.Replies.{Reply, reply_of};
ghost use Rattle.kh_inputs.specs.Inputs.{IsCodeRead, IsDiagramRead};
ghost use Rattle.kh_runs.specs.Homology.{jones_line};
ghost use Rattle.kh_replies.specs.Union.{union_reply};
ghost use Rattle.kh_inputs.specs.Parts.{code_part, part_behind};
ghost use Rattle.word_line.specs.Commands.{IsCommand};
ghost use Rattle.word_line.specs.Values.{IsFieldSize};
ghost use Rattle.kh_work.specs.Schedule.{answer_lines, events_of};
ghost use Rattle.kh_work.specs.Reduced.{mark_line};
ghost use Rattle.kh_work.specs.Edit.{edits_in, outcome_reply};
ghost use Rattle.kh_work.specs.Answer.{HaveOneReply, IsAnswer};
ghost use Rattle.kh_work.specs.Certify.{IsCertificate};
ghost use Rattle.kh_work.specs.Bench.{bench_counts, bench_lines};
ghost use Rattle.kh_runs.specs.Refusals.{refused_mark};
ghost use Rattle.kh_replies.specs.Limits.{too_large_number};
ghost use Rattle.homology_tables.specs.Tables.{total_of};
ghost use Rattle.braid_maker.specs.Closures.{code_of_number};
ghost use Rattle.braid_maker.specs.declared.limits.TheConstants.{NUMBERS};
ghost use Rattle.kh_types.specs.declared.limits.TheConstants.{WORKERS};
ghost use Rattle.link_algebra.specs.Mirrors.{mirror_of, reversal_of};
ghost use Rattle.link_algebra.specs.Unions.{crossings_together, loops_together, union_of};
ghost use Rattle.morse_drawing.specs.Pages.{slices_of};
ghost use Rattle.morse_drawing.specs.Texts.{drawing_text};
ghost use Rattle.gauss_code.specs.Printing.{gauss_text};
ghost use Rattle.pd_code.specs.Printing.{pd_text};
ghost use Rattle.reduced_cube.specs.Reduced.{is_mark, reduced_table};
ghost use Rattle.undo_stack.specs.Schedule.{IsSchedule};
ghost use Rattle.undo_stack.specs.EditScript.{IsEdit};
ghost use Rattle.undo_stack.specs.EditRuns.{diagram_after, edited};
ghost use Rattle.undo_stack.specs.Histories.{opening_history};
ghost use Rattle.undo_stack.specs.Sums.{HasSumOf};
ghost use Rattle.undo_stack.specs.declared.edit_line.EditLine.{EditLine};
ghost use Rattle.undo_stack.specs.declared.schedule.ScheduleLine.{ScheduleLine};

use reduced_cube::laws::{known_marks, reduced_euler_characteristic};

/// To all words and all bytes there is an answer, and one alone, unless the words mean `certify`
/// and it is done: so refusals and limits are one, and so is the status.
pub fn one_answer()
    ensures some { (words : List (List ℕ)) (bytes : List ℕ) → (reply : Reply) × IsAnswer words bytes reply }
    ensures one { (words : List (List ℕ)) (bytes : List ℕ) (reply other : Reply) → HaveOneReply words
        → IsAnswer words bytes reply → IsAnswer words bytes other → reply ≡ other }
    ensures undone { (words : List (List ℕ)) (bytes : List ℕ) (reply other : Reply)
        → reply.status ≢ Status.Done
        → IsAnswer words bytes reply → IsAnswer words bytes other → reply ≡ other }
    ensures status { (words : List (List ℕ)) (bytes : List ℕ) (reply other : Reply)
        → IsAnswer words bytes reply → IsAnswer words bytes other → reply.status ≡ other.status }
{}

/// Commands that differ only in the number of their workers have the same answers.
pub fn workers_do_not_change_answers()
    ensures { (words other : List (List ℕ)) (command : Command) (workers : ℕ) (bytes : List ℕ) (reply : Reply)
        → IsCommand words command → IsCommand other (record command { workers = workers })
        → IsAnswer words bytes reply → IsAnswer other bytes reply }
{}

/// Words that mean the command `homology`, and bytes that are the text of the code of an accepted
/// diagram within the limits, are answered by its homology table over the field that the words
/// name, and by the Jones line of its state sum.
pub fn accepted_diagrams_are_answered_by_their_table()
    ensures { (words : List (List ℕ)) (bytes : List ℕ) (command : Command) (code : Code)
        → IsCommand words command → command.task ≡ Task.Homology
        → length bytes ≤ INPUT_BYTES → IsCodeRead bytes (Ok code) → IsTrue (accepted code)
        → generator_count code ≤ GENERATORS
        → IsAnswer words bytes (reply_of Status.Done
        (table_text (table command.field code) ++ jones_line code)) }
{}

/// Words that mean the command `jones`, and bytes that are the text of the code of an accepted
/// diagram, are answered by the Jones line of its state sum.
pub fn accepted_diagrams_are_answered_by_their_polynomial()
    ensures line { (code : Code) → jones_line code ≡ polynomial_text (state_sum code) }
    ensures answer { (words : List (List ℕ)) (bytes : List ℕ) (command : Command) (code : Code)
        → IsCommand words command → command.task ≡ Task.Jones
        → length bytes ≤ INPUT_BYTES → IsCodeRead bytes (Ok code) → IsTrue (accepted code)
        → IsAnswer words bytes (reply_of Status.Done (jones_line code)) }
{}

/// Words that mean the command `check`, and bytes that are the text of the code of an accepted
/// diagram, are answered by one line: how many crossings it has, how many of them are positive and
/// how many negative, how many components, connected pieces and faces, each without the
/// crossingless loops, and how many such loops.
pub fn accepted_diagrams_are_answered_by_their_counts()
    ensures { (words : List (List ℕ)) (bytes : List ℕ) (command : Command) (code : Code)
        → IsCommand words command → command.task ≡ Task.Check
        → length bytes ≤ INPUT_BYTES → IsCodeRead bytes (Ok code) → IsTrue (accepted code)
        → IsAnswer words bytes (reply_of Status.Done (codes "accepted crossings "
        ++ (decimal (length code.crossings)
        ++ (codes " plus " ++ (decimal (plus_count code.crossings)
        ++ (codes " minus " ++ (decimal (minus_count code.crossings)
        ++ (codes " components " ++ (decimal (component_count code.crossings)
        ++ (codes " pieces " ++ (decimal (piece_count code.crossings)
        ++ (codes " faces " ++ (decimal (face_count code.crossings)
        ++ (codes " loops " ++ (decimal code.loops ++ codes "\n"))))))))))))))) }
{}

/// Words that mean the command `convert`, and bytes that are the text of the code of an accepted
/// diagram, are answered by a line: its planar diagram text, or its signed Gauss text where the
/// words ask for that. What is answered is read as the same code, in either form.
pub fn accepted_diagrams_are_answered_by_their_text()
    ensures planar { (words : List (List ℕ)) (bytes : List ℕ) (command : Command) (code : Code)
        → IsCommand words command → command.task ≡ Task.Convert → command.to ≡ Form.Pd
        → length bytes ≤ INPUT_BYTES → IsCodeRead bytes (Ok code) → IsTrue (accepted code)
        → IsAnswer words bytes (reply_of Status.Done (pd_text code ++ codes "\n")) }
    ensures gauss { (words : List (List ℕ)) (bytes : List ℕ) (command : Command) (code : Code)
        → IsCommand words command → command.task ≡ Task.Convert → command.to ≡ Form.Gauss
        → length bytes ≤ INPUT_BYTES → IsCodeRead bytes (Ok code) → IsTrue (accepted code)
        → IsAnswer words bytes (reply_of Status.Done (gauss_text code ++ codes "\n")) }
    ensures read_back { (words : List (List ℕ)) (bytes : List ℕ) (command : Command) (code : Code) (reply : Reply)
        → IsCommand words command → command.task ≡ Task.Convert
        → length bytes ≤ INPUT_BYTES → IsCodeRead bytes (Ok code) → IsTrue (accepted code)
        → IsAnswer words bytes reply → IsCodeRead reply.text (Ok code) }
{}

/// Words that mean the command `schedule`, and bytes with the code of an accepted diagram within
/// the limits and a script that is read as the lines of a schedule, are answered by what the core
/// answers to these lines, by the homology table over the field that the words name, and by the
/// Jones line.
pub fn accepted_diagrams_are_answered_by_their_schedule()
    ensures { (words : List (List ℕ)) (bytes : List ℕ) (command : Command) (code : Code)
        (script : List (ℕ × ScheduleLine))
        → IsCommand words command → command.task ≡ Task.Schedule
        → length bytes ≤ INPUT_BYTES → IsCodeRead (code_part bytes) (Ok code) → IsTrue (accepted code)
        → IsSchedule (part_behind bytes) (Ok script) → generator_count code ≤ GENERATORS
        → IsAnswer words bytes (reply_of Status.Done
        (answer_lines script (answers command.field code WORKERS (events_of script))
        ++ (table_text (table command.field code) ++ jones_line code))) }
{}

/// Words that mean the command `edit`, and bytes with the code of an accepted diagram and a script
/// that is read as the lines of an edit, are answered by the diagram after each line that is done,
/// and by the line behind them, where it is refused. Every diagram that is written, that after any
/// number of lines, is accepted and has the first one's state sum. Without lines nothing is
/// written.
pub fn accepted_diagrams_are_answered_by_their_edit()
    ensures answer { (words : List (List ℕ)) (bytes : List ℕ) (command : Command) (code : Code)
        (script : List (ℕ × EditLine))
        → IsCommand words command → command.task ≡ Task.Edit
        → length bytes ≤ INPUT_BYTES → IsCodeRead (code_part bytes) (Ok code) → IsTrue (accepted code)
        → IsEdit (part_behind bytes) (Ok script)
        → IsAnswer words bytes (outcome_reply code script (edited (edits_in script) (opening_history code))) }
    ensures sum { (lines : List EditLine) (code : Code) (count : ℕ) → IsTrue (accepted code)
        → HasSumOf code (diagram_after lines code count) }
    ensures nothing { (code : Code)
        → outcome_reply code [] (edited (edits_in []) (opening_history code)) ≡ reply_of Status.Done [] }
{}

/// Words that mean the command `draw`, and bytes that are the text of the code of an accepted
/// diagram, are answered by the text of its drawing.
pub fn accepted_diagrams_are_answered_by_their_drawing()
    ensures { (words : List (List ℕ)) (bytes : List ℕ) (command : Command) (code : Code)
        → IsCommand words command → command.task ≡ Task.Draw
        → length bytes ≤ INPUT_BYTES → IsCodeRead bytes (Ok code) → IsTrue (accepted code)
        → IsAnswer words bytes (reply_of Status.Done (drawing_text (slices_of code))) }
{}

/// Words that mean the command `reduced` with a mark, and bytes that are the text of the code of an
/// accepted diagram, are answered by the line of the mark, the reduced homology table at it over
/// the field that the words name, and the diagram's Jones line, where the mark is an arc or a loop
/// and there are few enough generators. (q + q^-1) times the Euler characteristic of that table is
/// the state sum, which that line shows. Another mark is refused, however many generators there
/// are.
pub fn accepted_diagrams_are_answered_by_their_reduced_table()
    ensures answer { (words : List (List ℕ)) (bytes : List ℕ) (command : Command) (mark : ℕ) (code : Code)
        → IsCommand words command → command.task ≡ Task.Reduced → command.mark ≡ Some mark
        → length bytes ≤ INPUT_BYTES → IsCodeRead bytes (Ok code) → IsTrue (accepted code)
        → is_mark code mark ≡ true → generator_count code ≤ GENERATORS
        → IsAnswer words bytes (reply_of Status.Done
        (mark_line mark ++ (table_text (reduced_table command.field code mark) ++ jones_line code))) }
    ensures refused { (words : List (List ℕ)) (bytes : List ℕ) (command : Command) (mark : ℕ) (code : Code)
        → IsCommand words command → command.task ≡ Task.Reduced → command.mark ≡ Some mark
        → length bytes ≤ INPUT_BYTES → IsCodeRead bytes (Ok code) → IsTrue (accepted code)
        → is_mark code mark ≡ false → IsAnswer words bytes (refused_mark mark) }
    ensures sum { (field : ℕ) (code : Code) (mark : ℕ) (exponent : ℤ) → IsFieldSize field
        → IsTrue (accepted code) → length code.crossings ≤ CROSSINGS → is_mark code mark ≡ true
        → euler (reduced_table field code mark) (exponent -ℤ pos 1)
        +ℤ euler (reduced_table field code mark) (exponent +ℤ pos 1) ≡ state_sum code exponent }
{
    known_marks();
    reduced_euler_characteristic();
}

/// Words that mean the command `certify`, and bytes that are the text of the code of an accepted
/// diagram within the limits, are answered by each log of that diagram over the field that the
/// words name which is short enough to be verified, and by nothing else.
pub fn accepted_diagrams_are_answered_by_their_logs()
    ensures answer { (words : List (List ℕ)) (bytes : List ℕ) (command : Command) (code : Code) (text : List ℕ)
        → IsCommand words command → command.task ≡ Task.Certify
        → length bytes ≤ INPUT_BYTES → IsCodeRead bytes (Ok code) → IsTrue (accepted code)
        → generator_count code ≤ GENERATORS → IsLog command.field code text
        → length text ≤ LOG_BYTES → IsAnswer words bytes (reply_of Status.Done text) }
    ensures only { (words : List (List ℕ)) (bytes : List ℕ) (command : Command) (code : Code) (reply : Reply)
        → IsCommand words command → command.task ≡ Task.Certify
        → length bytes ≤ INPUT_BYTES → IsCodeRead bytes (Ok code) → IsTrue (accepted code)
        → generator_count code ≤ GENERATORS → IsAnswer words bytes reply
        → IsCertificate command.field code reply }
{}

/// Words that mean the command `verify`, and bytes that are a log of a diagram over a field, are
/// answered by the line `verified` and the diagram's homology table over that field; and they are
/// answered as done where the bytes are such a log, and nowhere else. So is what `certify` answers
/// to an accepted diagram within the limits.
pub fn logs_are_answered_by_their_table()
    ensures answer { (words : List (List ℕ)) (bytes : List ℕ) (command : Command) (field : ℕ) (code : Code)
        → IsCommand words command → command.task ≡ Task.Verify → length bytes ≤ LOG_BYTES
        → IsLog field code bytes
        → IsAnswer words bytes (reply_of Status.Done (codes "verified\n" ++ table_text (table field code))) }
    ensures only { (words : List (List ℕ)) (bytes : List ℕ) (command : Command) (reply : Reply)
        → IsCommand words command → command.task ≡ Task.Verify
        → IsAnswer words bytes reply → reply.status ≡ Status.Done
        → (field : ℕ) × (code : Code) × IsLog field code bytes
        × (reply.text ≡ codes "verified\n" ++ table_text (table field code)) }
    ensures certified { (words other : List (List ℕ)) (bytes : List ℕ) (command verifier : Command) (code : Code)
        (reply : Reply) → IsCommand words command → command.task ≡ Task.Certify
        → length bytes ≤ INPUT_BYTES → IsCodeRead bytes (Ok code) → IsTrue (accepted code)
        → generator_count code ≤ GENERATORS → IsAnswer words bytes reply
        → IsCommand other verifier → verifier.task ≡ Task.Verify → IsAnswer other reply.text
        (reply_of Status.Done (codes "verified\n" ++ table_text (table command.field code))) }
{}

/// Words that mean the command `mirror`, or the command `reverse`, and bytes that are the text of
/// the code of an accepted diagram, are answered by the planar diagram text of its mirror, or of
/// its reversal.
pub fn accepted_diagrams_are_answered_by_their_mirror()
    ensures mirrored { (words : List (List ℕ)) (bytes : List ℕ) (command : Command) (code : Code)
        → IsCommand words command → command.task ≡ Task.Mirror
        → length bytes ≤ INPUT_BYTES → IsCodeRead bytes (Ok code) → IsTrue (accepted code)
        → IsAnswer words bytes (reply_of Status.Done (pd_text (mirror_of code) ++ codes "\n")) }
    ensures reversed { (words : List (List ℕ)) (bytes : List ℕ) (command : Command) (code : Code)
        → IsCommand words command → command.task ≡ Task.Reverse
        → length bytes ≤ INPUT_BYTES → IsCodeRead bytes (Ok code) → IsTrue (accepted code)
        → IsAnswer words bytes (reply_of Status.Done (pd_text (reversal_of code) ++ codes "\n")) }
{}

/// Words that mean the command `union`, and bytes with the codes of two accepted diagrams, are
/// answered by the planar diagram text of their disjoint union, unless they have too many crossings
/// together or too many loops. Where the second code is refused, the line `second` stands before
/// that of the refusal.
pub fn accepted_diagrams_are_answered_by_their_union()
    ensures answer { (words : List (List ℕ)) (bytes : List ℕ) (command : Command) (first second : Code)
        → IsCommand words command → command.task ≡ Task.Union → length bytes ≤ INPUT_BYTES
        → IsCodeRead (code_part bytes) (Ok first) → IsTrue (accepted first)
        → IsCodeRead (part_behind bytes) (Ok second) → IsTrue (accepted second)
        → IsAnswer words bytes (union_reply first second) }
    ensures text { (first second : Code) → crossings_together first second ≤ CROSSINGS
        → loops_together first second ≤ LOOPS
        → union_reply first second ≡ reply_of Status.Done (pd_text (union_of first second) ++ codes "\n") }
    ensures refused { (words : List (List ℕ)) (bytes : List ℕ) (command : Command) (first : Code) (refusal : Reply)
        → IsCommand words command → command.task ≡ Task.Union → length bytes ≤ INPUT_BYTES
        → IsCodeRead (code_part bytes) (Ok first) → IsTrue (accepted first)
        → IsDiagramRead (part_behind bytes) (Err refusal)
        → IsAnswer words bytes (reply_of refusal.status (codes "second\n" ++ refusal.text)) }
{}

/// Words that mean the command `bench` with a number are answered by three lines of counts of the
/// number's diagram, the sum of all dimensions of its homology table over the field that the words
/// name being the last, and by its Jones line; where no diagram has the number they are answered by
/// the limit on numbers.
pub fn numbers_are_answered_by_their_table()
    ensures table { (words : List (List ℕ)) (bytes : List ℕ) (command : Command) (number : ℕ)
        → IsCommand words command → command.task ≡ Task.Bench → command.number ≡ Some number
        → number < NUMBERS → IsAnswer words bytes (reply_of Status.Done
        (bench_lines (bench_counts number (code_of_number number)
        (total_of (table command.field (code_of_number number)))) ++ jones_line (code_of_number number))) }
    ensures limit { (words : List (List ℕ)) (bytes : List ℕ) (command : Command) (number : ℕ)
        → IsCommand words command → command.task ≡ Task.Bench → command.number ≡ Some number
        → NUMBERS ≤ number → IsAnswer words bytes (too_large_number number) }
{}

/// The Jones line of an accepted diagram is that of the graded Euler characteristic of its homology
/// table, over each field. Source: Bar-Natan 2002, section 3.
pub fn jones_line_is_the_euler_characteristic()
    ensures { (field : ℕ) (code : Code) → IsFieldSize field → IsTrue (accepted code) → length code.crossings ≤ CROSSINGS
        → jones_line code ≡ polynomial_text (euler (table field code)) }
{}
