//! What becomes of homology, command by command.

ghost use Rattle.std.specs.Prelude.{◌≡◌, ◌≤◌, ◌++◌, ℕ, List, length, Ok, Some, IsTrue, true};
ghost use Rattle.circle_smoothing.specs.GeneratorCounts.{generator_count};
ghost use Rattle.circle_smoothing.specs.declared.limits.TheConstants.{GENERATORS};
ghost use Rattle.kh_types.specs.Acceptance.{accepted};
ghost use Rattle.kh_types.specs.Code.{Code};
ghost use Rattle.kh_types.specs.declared.limits.TheConstants.{CROSSINGS, INPUT_BYTES, LOOPS};
ghost use Rattle.word_line.specs.declared.command.Command.{Command};
ghost use Rattle.word_line.specs.declared.command.Task.{Task};
ghost use Rattle.word_line.specs.Commands.{IsCommand};
ghost use Rattle.pd_code.specs.Printing.{pd_text};
ghost use Rattle.link_algebra.specs.Unions.{crossings_together, loops_together};
ghost use Rattle.link_laws.specs.Links.{AreOneLink};
ghost use Rattle.undo_stack.specs.EditRuns.{diagram_after, edited};
ghost use Rattle.undo_stack.specs.EditScript.{IsEdit};
ghost use Rattle.undo_stack.specs.Histories.{opening_history};
ghost use Rattle.undo_stack.specs.declared.edit_line.EditLine.{EditLine};
ghost use Rattle.reduced_cube.specs.Reduced.{is_mark};
ghost use Rattle.kh_inputs.specs.Inputs.{IsDiagramText};
ghost use Rattle.kh_inputs.specs.Parts.{code_part, part_behind};
ghost use Rattle.kh_runs.specs.Replies.{Reply, reply_of};
ghost use Rattle.kh_runs.specs.declared.status.Status.{Status};
ghost use Rattle.kh_work.specs.Answer.{IsAnswer};
ghost use Rattle.kh_work.specs.Edit.{edits_in, outcome_reply};
ghost use Rattle.kh_work.specs.Reduced.{mark_line};
ghost use Rattle.answer_laws.specs.Shown.{HasDualTablesOf, HasProductOf, HasTablesOf, ShowsDiagram};

/// All diagrams of one link, within the limit on generators, are answered alike by `homology`, and
/// all of them by `jones`: what is written is the link's, and not the diagram's.
pub fn diagrams_of_a_link_are_answered_alike()
    ensures homology { (words : List (List ℕ)) (command : Command) (bytes others : List ℕ)
        (first last : Code) (reply other : Reply)
        → IsCommand words command → command.task ≡ Task.Homology → AreOneLink first last
        → IsDiagramText bytes first → generator_count first ≤ GENERATORS
        → IsDiagramText others last → generator_count last ≤ GENERATORS
        → IsAnswer words bytes reply → IsAnswer words others other → other ≡ reply }
    ensures jones { (words : List (List ℕ)) (command : Command) (bytes others : List ℕ)
        (first last : Code) (reply other : Reply)
        → IsCommand words command → command.task ≡ Task.Jones → AreOneLink first last
        → IsDiagramText bytes first → IsDiagramText others last
        → IsAnswer words bytes reply → IsAnswer words others other → other ≡ reply }
{}

/// Each diagram that `edit` writes is one of the same link as the one that it read, with its tables
/// and state sum, whatever moves are made, taken back and made again; and its text is read as this
/// diagram, where it has no more crossingless loops than a text may have. It can have more: a kink
/// or a finger that is dropped may leave a loop (`edits_may_leave_too_many_loops`).
pub fn edits_keep_tables()
    ensures answer { (words : List (List ℕ)) (command : Command) (bytes : List ℕ) (code : Code)
        (script : List (ℕ × EditLine)) (reply : Reply)
        → IsCommand words command → command.task ≡ Task.Edit → length bytes ≤ INPUT_BYTES
        → IsDiagramText (code_part bytes) code → IsEdit (part_behind bytes) (Ok script)
        → IsAnswer words bytes reply
        → reply ≡ outcome_reply code script (edited (edits_in script) (opening_history code)) }
    ensures link { (lines : List EditLine) (code : Code) (count : ℕ) → IsTrue (accepted code)
        → AreOneLink code (diagram_after lines code count) }
    ensures shown { (lines : List EditLine) (code : Code) (count : ℕ) → IsTrue (accepted code)
        → HasTablesOf code (diagram_after lines code count) }
    ensures read { (bytes : List ℕ) (lines : List EditLine) (code : Code) (count : ℕ)
        → IsDiagramText bytes code → (diagram_after lines code count).loops ≤ LOOPS
        → IsDiagramText (pd_text (diagram_after lines code count)) (diagram_after lines code count) }
{}

/// `mirror` writes a diagram whose tables are those of the one that it read, turned round.
pub fn mirrors_turn_tables()
    ensures { (words : List (List ℕ)) (command : Command) (bytes : List ℕ) (code : Code) (reply : Reply)
        → IsCommand words command → command.task ≡ Task.Mirror → IsDiagramText bytes code
        → IsAnswer words bytes reply → ShowsDiagram (HasDualTablesOf code) reply }
{}

/// `reverse` writes a diagram with the tables of the one that it read, and `convert` the same
/// diagram, in either form.
pub fn reversals_keep_tables()
    ensures reversed { (words : List (List ℕ)) (command : Command) (bytes : List ℕ) (code : Code) (reply : Reply)
        → IsCommand words command → command.task ≡ Task.Reverse → IsDiagramText bytes code
        → IsAnswer words bytes reply → ShowsDiagram (HasTablesOf code) reply }
    ensures converted { (words : List (List ℕ)) (command : Command) (bytes : List ℕ) (code : Code) (reply : Reply)
        → IsCommand words command → command.task ≡ Task.Convert → IsDiagramText bytes code
        → IsAnswer words bytes reply → ShowsDiagram (λ other. other ≡ code) reply }
{}

/// `union` writes a diagram whose tables are the products of those of the two that it read, where
/// they are small enough together.
pub fn unions_multiply_answers()
    ensures { (words : List (List ℕ)) (command : Command) (bytes : List ℕ) (first second : Code) (reply : Reply)
        → IsCommand words command → command.task ≡ Task.Union → length bytes ≤ INPUT_BYTES
        → IsDiagramText (code_part bytes) first → IsDiagramText (part_behind bytes) second
        → crossings_together first second ≤ CROSSINGS → loops_together first second ≤ LOOPS
        → IsAnswer words bytes reply → ShowsDiagram (HasProductOf first second) reply }
{}

/// Over two elements `reduced` writes the same table at each mark: two answers to one diagram
/// differ in the line of the mark alone.
pub fn marks_do_not_matter_to_answers_over_two_elements()
    ensures { (words others : List (List ℕ)) (command asked : Command) (bytes : List ℕ) (code : Code)
        (mark other_mark : ℕ) (reply other : Reply)
        → IsCommand words command → command.task ≡ Task.Reduced → command.field ≡ 2
        → command.mark ≡ Some mark → is_mark code mark ≡ true
        → IsCommand others asked → asked.task ≡ Task.Reduced → asked.field ≡ 2
        → asked.mark ≡ Some other_mark → is_mark code other_mark ≡ true
        → IsDiagramText bytes code → generator_count code ≤ GENERATORS
        → IsAnswer words bytes reply → IsAnswer others bytes other
        → (text : List ℕ) × (reply ≡ reply_of Status.Done (mark_line mark ++ text))
        × (other ≡ reply_of Status.Done (mark_line other_mark ++ text)) }
{}
