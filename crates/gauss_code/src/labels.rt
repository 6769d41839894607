//! Which labels and signs are good.

ghost use Rattle.std.specs.Prelude.{◌≡◌, ◌<◌, IfSome, length};
ghost use Rattle.std.specs.List.{list_any};
ghost use Rattle.std.specs.Ordering.{int_eq};
ghost use Rattle.code_passes.specs.Labels.{bad_label, bad_sign, is_bad_label, is_bad_sign, names_none, listed_number};

/// The number at a place, and 0 where there is none.
pub fn listed_number(numbers: &[i32], at: usize) -> i32
    ensures { result ≡ listed_number numbers.now at }
{
    numbers.get(at).copied().unwrap_or(0)
}

/// The place of the first label that names no crossing or equals an earlier one, if there is one.
pub fn bad_label(labels: &[i32]) -> Option<usize>
    ensures { result ≡ bad_label labels.now }
{
    (0..labels.len()).find(|at| is_bad_label(labels, *at))
}

/// Whether the label at a place names no crossing or equals an earlier one.
fn is_bad_label(labels: &[i32], at: usize) -> bool
    requires { at < length labels.now }
    ensures { result ≡ is_bad_label labels.now at }
{
    let label = listed_number(labels, at);
    names_none(labels.len() / 2, label) || stands_in(&labels[..at], label)
}

/// Whether a label is one of some labels.
fn stands_in(labels: &[i32], label: i32) -> bool
    ensures { result ≡ list_any (int_eq label) labels.now }
{
    labels.iter().any(|other| label == *other)
}

/// Whether a label names none of some crossings.
fn names_none(crossings: usize, label: i32) -> bool
    ensures { result ≡ names_none crossings label }
{
    label == 0 || crossings < label.unsigned_abs() as usize
}

/// The place of the first sign that is neither 1 nor -1, if there is one.
pub fn bad_sign(signs: &[i32]) -> Option<usize>
    ensures place { result ≡ bad_sign signs.now }
    ensures within { IfSome result (λ at. at < length signs.now) }
{
    (0..signs.len()).find(|at| is_bad_sign(listed_number(signs, *at)))
}

/// Whether a sign is neither 1 nor -1.
fn is_bad_sign(sign: i32) -> bool
    ensures { result ≡ is_bad_sign sign }
{
    !(sign == 1 || sign == -1)
}
