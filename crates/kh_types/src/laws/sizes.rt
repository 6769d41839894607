//! The sizes of states, of degrees and of tables, and the limits.

ghost use Rattle.std.specs.Prelude.{◌≡◌, ◌≢◌, ℕ, Some, ◌+◌, ◌*◌, ◌<◌, ◌≤◌, ℤ, List, [], length, IsTrue};
ghost use Rattle.std.specs.List.{All, Contains};
ghost use Rattle.kh_types.specs.declared.limits.TheConstants.{CROSSINGS, ARCS, GREATEST_ARC, COMPONENTS, CIRCLES, EXPONENT, LOOPS, WORKERS, INPUT_BYTES};
ghost use Rattle.kh_types.specs.Code.{Code};
ghost use Rattle.kh_types.specs.declared.fault.CodeFault.TheVariants.{Components};
ghost use Rattle.kh_types.specs.Acceptance.{accepted, first_fault};
ghost use Rattle.kh_types.specs.Accepted.{IsDirected};
ghost use Rattle.kh_types.specs.Directions.{HasNoSingleArcs};
ghost use Rattle.kh_types.specs.Components.{component_count};
ghost use Rattle.kh_types.specs.Circles.{circle_count};
ghost use Rattle.kh_types.specs.Generators.{Generator, homological_degree, quantum_degree, generators_at};
ghost use Rattle.kh_types.specs.Table.{IsWithin, dimension, row_at, table};

/// The limits. Those on arcs, circles and exponents follow from those on crossings and components.
pub fn limits()
    ensures crossings { CROSSINGS ≡ 20 }
    ensures arcs { ARCS ≡ 2 * CROSSINGS }
    ensures greatest_arc { GREATEST_ARC ≡ 255 }
    ensures components { COMPONENTS ≡ 28 }
    ensures circles { CIRCLES ≡ CROSSINGS + COMPONENTS }
    ensures exponent { EXPONENT ≡ CIRCLES + 2 * CROSSINGS }
    ensures loops { LOOPS ≡ 8 }
    ensures workers { WORKERS ≡ 64 }
    ensures input { INPUT_BYTES ≡ 65536 }
{}

/// A state of an accepted code has at most as many circles as there are crossings, components and
/// loops together; so within the limits it has at most CIRCLES.
pub fn circles_are_bounded()
    ensures any { (code : Code) (state : ℕ) → IsTrue (accepted code) → circle_count code state
        ≤ length code.crossings + component_count code.crossings + code.loops }
    ensures within { (code : Code) (state : ℕ) → IsTrue (accepted code)
        → length code.crossings ≤ CROSSINGS → circle_count code state ≤ CIRCLES }
{}

/// A directed code in which no component has a single arc has at most as many components as
/// crossings; so the rule on components and loops is never the first that a code breaks which has
/// no more loops than a text.
pub fn components_are_few()
    ensures few { (crossings : List (List ℕ)) → IsDirected crossings → HasNoSingleArcs crossings
        → component_count crossings ≤ length crossings }
    ensures texts { (code : Code) (count : ℕ) → length code.crossings ≤ CROSSINGS → code.loops ≤ LOOPS
        → first_fault code ≢ Some (Components count) }
{}

/// With n crossings, homological degrees lie from -n to n.
pub fn homological_degrees_are_bounded()
    ensures { (code : Code) (generator : Generator)
        → IsWithin (length code.crossings) (homological_degree code generator) }
{}

/// The quantum degrees of an accepted code are in size at most three for each crossing and one for
/// each component and loop; so within the limits they are at most EXPONENT, and there are no
/// generators of other degrees.
pub fn quantum_degrees_are_bounded()
    ensures any { (code : Code) (generator : Generator) → IsTrue (accepted code)
        → IsWithin (3 * length code.crossings + component_count code.crossings + code.loops)
        (quantum_degree code generator) }
    ensures within { (code : Code) (generator : Generator) → IsTrue (accepted code)
        → length code.crossings ≤ CROSSINGS → IsWithin EXPONENT (quantum_degree code generator) }
    ensures outside { (code : Code) (i j : ℤ) → IsTrue (accepted code)
        → length code.crossings ≤ CROSSINGS → ¬ IsWithin EXPONENT j → generators_at code i j ≡ [] }
{}

/// The table of an accepted code within the limits has a row for any two degrees with a dimension
/// above 0. Each row of a table is that of its two degrees, and has a dimension above 0.
pub fn tables_have_all_rows()
    ensures all { (p : ℕ) (code : Code) (i j : ℤ) → IsTrue (accepted code)
        → length code.crossings ≤ CROSSINGS → 0 < dimension p code i j
        → Contains (table p code).rows (row_at p code j i) }
    ensures only { (p : ℕ) (code : Code)
        → All (λ row. (0 < row.dim) × (row ≡ row_at p code row.j row.i)) (table p code).rows }
{}
