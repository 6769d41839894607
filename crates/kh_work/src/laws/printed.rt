//! What is printed of a diagram is read back.

ghost use Rattle.std.specs.Prelude.{◌≡◌, ◌≤◌, List, All, IsTrue, Ok, length};
ghost use Rattle.kh_types.specs.Acceptance.{accepted};
ghost use Rattle.kh_types.specs.Code.{Code};
ghost use Rattle.kh_types.specs.declared.limits.TheConstants.{CROSSINGS, LOOPS};
ghost use Rattle.kh_lex.specs.Lines.{with_feed};
ghost use Rattle.word_line.specs.declared.command.Form.{Form};
ghost use Rattle.kh_inputs.specs.Inputs.{IsCodeRead};
ghost use Rattle.kh_replies.specs.Convert.{text_in};

/// A line of the text of an accepted diagram within the limits, in either form, is read as its
/// code. That a diagram's crossings have four slots each is part of their type.
pub fn printed_diagrams_are_read_back()
    ensures { (form : Form) (code : Code) → IsTrue (accepted code)
        → All (λ slots. length slots ≡ 4) code.crossings
        → length code.crossings ≤ CROSSINGS → code.loops ≤ LOOPS
        → IsCodeRead (with_feed (text_in form code)) (Ok code) }
{}
