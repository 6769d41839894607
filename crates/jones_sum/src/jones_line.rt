//! The Jones line.

ghost use Rattle.std.specs.Prelude.{◌≡◌, ◌++◌, string_bytes, IfOk, OnOk};
ghost use Rattle.std.specs.List.{flat_map};
ghost use Rattle.kh_types.specs.declared.limits.TheConstants.{EXPONENT};
ghost use Rattle.kh_types.specs.StateSum.{polynomial_text, term_text, terms};
ghost use Rattle.kh_types.specs.Table.{IsWithin};
ghost use Rattle.jones_sum.specs.Coefficients.{coefficient_in};
ghost use Rattle.jones_sum.specs.Terms.{jones_line_of, text_at};

use crate::laurent::{COEFFICIENTS, Laurent, exponent_at};
use kh_types::NoMemory;
use std::alloc::Global;

/// The Jones line: `jones`, then for each exponent with a coefficient that is not 0, ascending, a
/// space and `C*q^E`, then a line feed; the zero polynomial is `jones 0`.
pub fn print_jones(alloc: Global, polynomial: &Laurent) -> Result<Vec<u8>, NoMemory>
    ensures text { IfOk result (λ text.
        text.items ≡ polynomial_text (coefficient_in polynomial.now)) }
{
    let terms = terms_of(alloc, polynomial)?;
    let line = jones_line_of(alloc, terms.as_str())?;
    Ok(line.into_bytes())
}

/// The line with the texts of all terms.
fn jones_line_of(alloc: Global, terms: &str) -> Result<String, NoMemory>
    ensures { IfOk result (λ line. string_bytes line ≡ jones_line_of terms.now) }
{
    if terms.is_empty() {
        Ok(format!(in alloc; "jones 0\n")?)
    } else {
        Ok(format!(in alloc; "jones{terms}\n")?)
    }
}

/// The terms with a coefficient that is not 0, ascending by exponent, each behind a space.
#[tactic(auto, using(crate::proofs::TermTexts::texts))]
fn terms_of(alloc: Global, polynomial: &Laurent) -> Result<String, NoMemory>
    ensures { IfOk result (λ text.
        string_bytes text ≡ flat_map term_text (terms (coefficient_in polynomial.now))) }
{
    let mut text = String::new(alloc);
    'places: for place in 0..COEFFICIENTS {
        push_term(alloc, &mut text, polynomial, exponent_at(place))?;
    }
    Ok(text)
}

/// Adds the term of an exponent where its coefficient is not 0.
fn push_term(
    alloc: Global,
    text: &mut String,
    polynomial: &Laurent,
    exponent: i16,
) -> Result<(), NoMemory>
    requires { IsWithin EXPONENT exponent }
    ensures { OnOk result (string_bytes text.new
        ≡ string_bytes text.old ++ text_at (coefficient_in polynomial.now) exponent) }
{
    let coefficient = polynomial.coefficient(exponent);
    if coefficient != 0 {
        let term = format!(in alloc; " {coefficient}*q^{exponent}")?;
        text.push_str(term.as_str())?;
    }
    Ok(())
}
