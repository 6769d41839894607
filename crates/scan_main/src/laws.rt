//! Laws of the answers of scans: each is the contract of a function that does nothing.

ghost use Rattle.std.specs.Prelude.{◌≡◌, ◌<◌, ◌≤◌, ℕ, List, ◌++◌, length, Err, Ok, Some};
ghost use Rattle.kh_types.specs.Acceptance.{first_fault};
ghost use Rattle.kh_types.specs.Code.{Code};
ghost use Rattle.kh_types.specs.Table.{table, table_text};
ghost use Rattle.kh_types.specs.declared.fault.CodeFault.{CodeFault};
ghost use Rattle.kh_types.specs.declared.limits.TheConstants.{INPUT_BYTES};
ghost use Rattle.word_line.specs.declared.scan_command.ScanCommand.TheVariants.{Alone};
ghost use Rattle.word_line.specs.ScanCommands.{IsScanCommand, IsScanUsage};
ghost use Rattle.word_line.specs.Values.{IsFieldSize};
ghost use Rattle.kh_runs.specs.declared.status.Status.{Status};
ghost use Rattle.kh_inputs.specs.Inputs.{IsCodeRead, IsDiagramText};
ghost use Rattle.kh_runs.specs.Homology.{jones_line};
ghost use Rattle.kh_inputs.specs.CodeRefusals.{IsFaultRefusal};
ghost use Rattle.kh_runs.specs.Refusals.{too_many_bytes};
ghost use Rattle.kh_runs.specs.Replies.{Reply, reply_of};
ghost use Rattle.line_answers.specs.Frames.{IsAnswerTo};
ghost use Rattle.line_answers.specs.Questions.{Question};
ghost use Rattle.scan_main.specs.ScanRuns.{IsTableTo};
ghost use Rattle.line_answers.specs.Scans.{AskForNoList, IsScanAnswer, IsTextReply, scan_usage};

/// To all words that ask for no list, and all bytes, there is exactly one answer.
pub fn one_answer()
    ensures some { (words : List (List ℕ)) (bytes : List ℕ) → AskForNoList words
        → (reply : Reply) × IsScanAnswer words bytes reply }
    ensures one { (words : List (List ℕ)) (bytes : List ℕ) (reply other : Reply)
        → IsScanAnswer words bytes reply → IsScanAnswer words bytes other → reply ≡ other }
{}

/// Words that ask for one diagram over a field, and bytes that are the text of the code of an
/// accepted diagram, are answered by its homology table over this field, and by the Jones line of
/// its state sum, however many generators its cube has.
pub fn accepted_diagrams_are_answered_by_their_table()
    ensures { (words : List (List ℕ)) (bytes : List ℕ) (field : ℕ) (code : Code)
        → IsScanCommand words (Alone field) → IsDiagramText bytes code
        → IsScanAnswer words bytes (reply_of Status.Done
        (table_text (table field code) ++ jones_line code)) }
{}

/// Words that mean no command are answered by the usage line, whatever the bytes are.
pub fn other_words_are_answered_by_the_usage_line()
    ensures { (words : List (List ℕ)) (bytes : List ℕ) → IsScanUsage words
        → IsScanAnswer words bytes scan_usage }
{}

/// Words that ask for one diagram, and more bytes than a code may have, are answered by that limit,
/// whatever the bytes are.
pub fn too_many_bytes_are_answered_by_their_limit()
    ensures { (words : List (List ℕ)) (bytes : List ℕ) (field : ℕ)
        → IsScanCommand words (Alone field) → INPUT_BYTES < length bytes
        → IsScanAnswer words bytes (too_many_bytes INPUT_BYTES) }
{}

/// Words that ask for one diagram, and no more bytes than a code may have, whose text is refused,
/// are answered by that refusal; and bytes that are the text of a code which is refused by the line
/// of its first fault.
pub fn refused_codes_are_answered_by_their_refusal()
    ensures text { (words : List (List ℕ)) (bytes : List ℕ) (field : ℕ) (refusal : Reply)
        → IsScanCommand words (Alone field)
        → length bytes ≤ INPUT_BYTES → IsCodeRead bytes (Err refusal)
        → IsScanAnswer words bytes refusal }
    ensures code { (words : List (List ℕ)) (bytes : List ℕ) (field : ℕ) (code : Code)
        (fault : CodeFault) (refusal : Reply)
        → IsScanCommand words (Alone field)
        → length bytes ≤ INPUT_BYTES → IsCodeRead bytes (Ok code)
        → first_fault code ≡ Some fault → IsFaultRefusal fault refusal
        → IsScanAnswer words bytes refusal }
{}

/// A line of a list is answered as it is alone, without its line feed: its answer over a field is
/// the one to its bytes and to words that ask for this field.
pub fn lines_are_answered_as_alone()
    ensures { (words : List (List ℕ)) (asked : Question) (reply : Reply)
        → IsScanCommand words (Alone asked.field) → IsAnswerTo IsTextReply asked reply
        → IsScanAnswer words asked.line.bytes reply }
{}

/// A line that is the text of an accepted diagram is answered by its homology.
pub fn lines_are_answered_by_tables()
    ensures { (asked : Question) (reply : Reply) → IsFieldSize asked.field
        → IsAnswerTo IsTextReply asked reply → IsTableTo asked reply }
{}
