//! Worked answers.

ghost use Rattle.std.specs.Prelude.{◌≡◌, ℕ, List, [], ◌∷◌, codes};
ghost use Rattle.kh_types.specs.Table.{table, table_text};
ghost use Rattle.kh_types.specs.WorkedCodes.{curl, empty_link, hopf_link};
ghost use Rattle.pd_code.specs.Printing.{pd_text};
ghost use Rattle.diagram_moves.specs.declared.change.Move.TheVariants.{KinkDrop};
ghost use Rattle.undo_stack.specs.EditRuns.{diagram_after};
ghost use Rattle.undo_stack.specs.declared.edit_line.EditLine.TheVariants.{Change};
ghost use Rattle.link_algebra.specs.Mirrors.{mirror_of};
ghost use Rattle.kh_inputs.specs.Inputs.{IsDiagramText};
ghost use Rattle.answer_laws.specs.Shown.{dual_table};

/// The table of the Hopf link goes from -6 to 0, and turned round from 0 to 6; so does that of its
/// mirror.
pub fn mirror_of_the_hopf_link_turns_its_table()
    ensures table { table_text (table 2 hopf_link)
        ≡ codes "table 2\nfield 2\nj -6 i -2 dim 1\nj -4 i -2 dim 1\nj -2 i 0 dim 1\nj 0 i 0 dim 1\n" }
    ensures turned { table_text (dual_table (table 2 hopf_link))
        ≡ codes "table 2\nfield 2\nj 0 i 0 dim 1\nj 2 i 0 dim 1\nj 4 i 2 dim 1\nj 6 i 2 dim 1\n" }
    ensures mirrored { table_text (table 2 (mirror_of hopf_link))
        ≡ codes "table 2\nfield 2\nj 0 i 0 dim 1\nj 2 i 0 dim 1\nj 4 i 2 dim 1\nj 6 i 2 dim 1\n" }
{}

/// An edit may leave more crossingless loops than a text may have: the text of a curl beside eight
/// loops is read, and where its kink is dropped, nine loops are left, of which no text is. So
/// `edit` writes a diagram that no command reads.
pub fn edits_may_leave_too_many_loops()
    ensures read { IsDiagramText (pd_text (record curl { loops = 8 })) (record curl { loops = 8 }) }
    ensures after { diagram_after (Change (KinkDrop 1) ∷ []) (record curl { loops = 8 }) 1
        ≡ record empty_link { loops = 9 } }
    ensures unread { (bytes : List ℕ) → ¬ IsDiagramText bytes (record empty_link { loops = 9 }) }
{}
