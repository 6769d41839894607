//! Laws of the definitions: each is the contract of a function that does nothing.

ghost use Rattle.std.specs.Prelude.{◌≡◌, ◌≢◌, ◌≤◌, [], ◌∷◌, ◌++◌, ℕ, List, All, Ok, length};
ghost use Rattle.kh_types.specs.Code.{Code};
ghost use Rattle.kh_types.specs.declared.limits.TheConstants.{CROSSINGS, LOOPS};
ghost use Rattle.kh_inputs.specs.Inputs.{IsCodeRead};
ghost use Rattle.kh_inputs.specs.Parts.{code_part, part_behind};

/// An input is cut at its first semicolon, byte 59: the code is before it and the script behind it.
/// Without one all is code.
pub fn inputs_are_cut_at_the_first_semicolon()
    ensures behind { (code script : List ℕ) → All (λ byte. byte ≢ 59) code
        → (code_part (code ++ 59 ∷ script) ≡ code) × (part_behind (code ++ 59 ∷ script) ≡ script) }
    ensures whole { (code : List ℕ) → All (λ byte. byte ≢ 59) code
        → (code_part code ≡ code) × (part_behind code ≡ []) }
{}

/// The crossings of the code of a text have four slots each, and its crossings and loops are within
/// the limits.
pub fn codes_of_texts_are_small()
    ensures slots { (bytes : List ℕ) (code : Code) → IsCodeRead bytes (Ok code)
        → All (λ slots. length slots ≡ 4) code.crossings }
    ensures crossings { (bytes : List ℕ) (code : Code) → IsCodeRead bytes (Ok code)
        → length code.crossings ≤ CROSSINGS }
    ensures loops { (bytes : List ℕ) (code : Code) → IsCodeRead bytes (Ok code) → code.loops ≤ LOOPS }
{}
