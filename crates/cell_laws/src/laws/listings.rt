//! How lists are put together that are one another's up to order and names.

ghost use Rattle.std.specs.Prelude.{List, ◌++◌, map, Bool};
ghost use Rattle.std.specs.List.{Contains, filter, flat_map};
ghost use Rattle.cell_laws.specs.Alike.{AreListed};

/// A list and itself, a list and its images, one after another, two lists behind one another in
/// either order, and what a test keeps.
pub fn listings_are_put_together<A, B, C>()
    ensures same { (xs : List A) → AreListed (λ (x : A). x) xs xs }
    ensures named { (to : A → B) (xs : List A) → AreListed to xs (map to xs) }
    ensures later { (to : A → B) (on : B → C) (xs : List A) (ys : List B) (zs : List C)
        → AreListed to xs ys → AreListed on ys zs → AreListed (λ x. on (to x)) xs zs }
    ensures append { (to : A → B) (xs us : List A) (ys vs : List B)
        → AreListed to xs ys → AreListed to us vs → AreListed to (xs ++ us) (ys ++ vs) }
    ensures exchanged { (xs ys : List A) → AreListed (λ (x : A). x) (xs ++ ys) (ys ++ xs) }
    ensures kept { (to : A → B) (test : B → Bool) (xs : List A) (ys : List B)
        → AreListed to xs ys → AreListed to (filter (λ x. test (to x)) xs) (filter test ys) }
{}

/// Lists of parts, where the wholes and the parts are so; and the pairs of two lists by the first
/// or by the second.
pub fn listings_of_parts<A, B, C, D>()
    ensures flat { (to : A → B) (on : C → D) (parts : A → List C) (others : B → List D)
        (xs : List A) (ys : List B) → AreListed to xs ys
        → ((x : A) → Contains xs x → AreListed on (parts x) (others (to x)))
        → AreListed on (flat_map parts xs) (flat_map others ys) }
    ensures turned { (pair : A → B → C) (xs : List A) (ys : List B) → AreListed (λ (c : C). c)
        (flat_map (λ x. map (pair x) ys) xs) (flat_map (λ y. map (λ x. pair x y) xs) ys) }
{}
