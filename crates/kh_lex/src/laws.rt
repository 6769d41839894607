//! What holds of the definitions that the contracts cite, beyond any one call.

ghost use Rattle.std.specs.Prelude.{◌≡◌, ◌↔◌, ℕ, ℤ, List, [], ◌∷◌, codes, pos, negsuc, Some, Ok, Err};
ghost use Rattle.kh_lex.specs.declared.token.Kind.TheVariants.{Word, Number, Comma};
ghost use Rattle.kh_lex.specs.declared.stop.LexStop.{LexStop};
ghost use Rattle.kh_lex.specs.declared.token.Token.{Token};
ghost use Rattle.kh_lex.specs.Cuts.{Cuts, Stops};
ghost use Rattle.kh_lex.specs.Lexer.{tokens_of};
ghost use Rattle.kh_lex.specs.Lines.{CutsLines, lines_of};
ghost use Rattle.kh_lex.specs.LineWords.{CutsWords, words_of};
ghost use Rattle.kh_lex.specs.Numerals.{WritesNumber, WritesSigned, numeral_of, signed_numeral_of};

use crate::limits::{NUMBER_DIGITS, NUMBER_LIMIT};
use crate::stop::LexStop;

/// The values of the limits, which the definitions name and do not write out.
pub fn number_limits()
    ensures size { NUMBER_LIMIT ≡ 65535 }
    ensures digits { NUMBER_DIGITS ≡ 7 }
{}

/// Lines cut a text in one way, and words a line: `lines_of` and `words_of` compute it.
pub fn each_text_is_cut_in_one_way()
    ensures lines { (text : List ℕ) (lines : List (List ℕ)) →
        (lines_of text ≡ lines) ↔ CutsLines text lines }
    ensures words { (line : List ℕ) (words : List (List ℕ)) →
        (words_of line ≡ words) ↔ CutsWords line words }
{}

/// A word writes one number at most, with a sign and without: `numeral_of` and `signed_numeral_of`
/// compute it.
pub fn numbers_are_written_in_one_way()
    ensures number { (limit : ℕ) (word : List ℕ) (number : ℕ) →
        (numeral_of limit word ≡ Some number) ↔ WritesNumber limit word number }
    ensures signed { (limit : ℕ) (word : List ℕ) (number : ℤ) →
        (signed_numeral_of limit word ≡ Some number) ↔ WritesSigned limit word number }
{}

/// Each text is cut by tokens or has a first fault, not both, and by no others: `tokens_of`
/// computes which.
pub fn tokens_cut_the_text()
    ensures cut { (text : List ℕ) (tokens : List Token) →
        (tokens_of text ≡ Ok tokens) ↔ Cuts 0 text tokens }
    ensures fault { (text : List ℕ) (stop : LexStop) →
        (tokens_of text ≡ Err stop) ↔ Stops 0 text stop }
    ensures one { (text : List ℕ) (a b : List Token) → Cuts 0 text a → Cuts 0 text b → a ≡ b }
    ensures uncut { (text : List ℕ) (stop : LexStop) (tokens : List Token) →
        Stops 0 text stop → ¬ Cuts 0 text tokens }
{}

/// The tokens of a text, and the first faults of some: a lone minus, a number that is too large,
/// a form feed, the first of two.
pub fn worked_tokens()
    ensures some { Cuts 0 (codes "Xy,\t-007") (
        record { kind = Word; place = 0; length = 2; value = pos 0 }
        ∷ record { kind = Comma; place = 2; length = 1; value = pos 0 }
        ∷ record { kind = Number; place = 4; length = 4; value = negsuc 6 } ∷ []) }
    ensures minus { Stops 0 (codes " - 2") (LexStop.Bad 1) }
    ensures two_minus { Stops 0 (codes "--2") (LexStop.Bad 0) }
    ensures number { Stops 0 (codes "PD]65536") (LexStop.Number 3) }
    ensures form_feed { Stops 0 (32 ∷ 12 ∷ []) (LexStop.Bad 1) }
    ensures first { Stops 0 (codes "70000 ?") (LexStop.Number 0) }
    ensures other_first { Stops 0 (codes "? 70000") (LexStop.Bad 0) }
{}
