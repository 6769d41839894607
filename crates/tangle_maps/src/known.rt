//! Seams that keep what was composed over them: two dot sets are composed once.

ghost use Rattle.std.specs.Prelude.{◌≡◌, ℕ, ◌<◌, length, IfOk, IfSome, OnOk};
ghost use Rattle.dotted_maps.specs.Maps.{scaled};
ghost use Rattle.tangle_maps.specs.Products.{AreProducts, AreProductsOver, HasProductAt, IsProduct};
ghost use Rattle.tangle_maps.specs.Seams.{CanCompose, seam_terms};
ghost use Rattle.tangle_maps.specs.Sums.{AreReduced, IsSum, dotted_term};
ghost use Rattle.tangle_maps.specs.declared.seam.Seam.{Seam};

use crate::composing::{add_composed, product};
use crate::seam::Seam;
use crate::sum::{Terms, add_scaled};
use dotted_maps::term::Term;
use kh_types::NoMemory;
use prime_field::PrimeField;
use prime_field::laws::element_laws;
use smallvec::SmallVec;
use std::alloc::Global;
use std::marker::Model;

/// Two dot sets, and what the terms compose to that have these and the coefficient 1.
#[derive(Drop)]
pub(crate) struct Product {
    dots: u64,
    others: u64,
    terms: Terms,
}

/// The products over a seam that have been made, over a field of so many elements.
#[derive(Drop)]
pub(crate) struct Products {
    elements: u8,
    made: Vec<Product>,
}

/// A seam that keeps the products over it, once they have been made. Contracts see the seam.
#[derive(Drop)]
pub struct KnownSeam {
    seam: Seam,
    products: Products,
}

impl Model for KnownSeam {
    ghost use Rattle.tangle_maps.specs.declared.seam.Seam.{Seam};
    ghost use Rattle.tangle_maps.specs.Products.{AreProducts};

    ghost Value = { Seam };

    ghost view = { λ known. known.seam };

    ghost invariant = { λ known. AreProducts known.seam known.products };
}

impl KnownSeam {
    /// A seam over which nothing has been composed.
    pub fn new(alloc: Global, seam: Seam) -> KnownSeam
        ensures { result ≡ seam }
    {
        KnownSeam {
            seam,
            products: Products {
                elements: 0,
                made: Vec::new(alloc),
            },
        }
    }

    /// The seam.
    pub fn seam(&self) -> &Seam
        ensures { result.now ≡ self.now }
    {
        &self.seam
    }

    /// Adds a multiple of the composition of two terms to a sum.
    pub(crate) fn add_composed<F: PrimeField>(
        &mut self,
        terms: &mut Terms,
        term: &Term,
        other: &Term,
        factor: F,
    ) -> Result<(), NoMemory>
        requires reduced { AreReduced F.P terms.old.items }
        requires seam { CanCompose self.old }
        requires term { term.now.coefficient < F.P }
        requires other { other.now.coefficient < F.P }
        ensures same { self.new ≡ self.old }
        ensures sum { OnOk result (IsSum F.P terms.old.items
            (scaled (F.value_of factor) (seam_terms self.old term.now other.now)) terms.new.items) }
        ensures reduced { AreReduced F.P terms.new.items }
    {
        let alloc = *self.products.made.allocator();
        let place = place_of::<F>(alloc, &mut self.products, &self.seam, term.dots, other.dots)?;
        let known = self.products.made[place].terms.as_slice();
        add_scaled(terms, known, product(term, other, factor))
    }
}

/// The place of the product of two dot sets, which is made if there is none.
fn place_of<F: PrimeField>(
    alloc: Global,
    products: &mut Products,
    seam: &Seam,
    dots: u64,
    others: u64,
) -> Result<usize, NoMemory>
    requires seam { CanCompose seam.now }
    requires products { AreProducts seam.now products.old }
    ensures products { AreProducts seam.now products.new }
    ensures place { IfOk result
        (HasProductAt F.P seam.now dots others products.new.made.items) }
{
    turn_to::<F>(products);
    match found_at(products.made.as_slice(), dots, others) {
        Some(place) => Ok(place),
        None => push_product::<F>(alloc, &mut products.made, seam, dots, others),
    }
}

/// Gives up products over another field.
fn turn_to<F: PrimeField>(products: &mut Products)
    ensures elements { products.new.elements ≡ F.P }
    ensures products { (seam : Seam) → AreProducts seam products.old
        → AreProductsOver F.P seam products.new.made.items }
{
    if products.elements != F::P {
        products.made.clear();
        products.elements = F::P;
    }
}

/// The place of the product of two dot sets, if there is one.
fn found_at(made: &[Product], dots: u64, others: u64) -> Option<usize>
    ensures { (p : ℕ) (seam : Seam) → AreProductsOver p seam made.now
        → IfSome result (HasProductAt p seam dots others made.now) }
{
    'made: for place in 0..made.len() {
        if made[place].dots == dots && made[place].others == others {
            return Some(place);
        }
    }
    None
}

/// Makes the product of two dot sets, and tells its place.
fn push_product<F: PrimeField>(
    alloc: Global,
    made: &mut Vec<Product>,
    seam: &Seam,
    dots: u64,
    others: u64,
) -> Result<usize, NoMemory>
    requires seam { CanCompose seam.now }
    requires made { AreProductsOver F.P seam.now made.old.items }
    ensures made { AreProductsOver F.P seam.now made.new.items }
    ensures place { IfOk result (HasProductAt F.P seam.now dots others made.new.items) }
{
    let place = made.len();
    let terms = product_of::<F>(alloc, seam, dots, others)?;
    made.push(Product {
        dots,
        others,
        terms,
    })?;
    Ok(place)
}

/// What the terms compose to that have these dots and the coefficient 1.
fn product_of<F: PrimeField>(
    alloc: Global,
    seam: &Seam,
    dots: u64,
    others: u64,
) -> Result<Terms, NoMemory>
    requires { CanCompose seam.now }
    ensures { IfOk result (λ made. IsProduct F.P seam.now dots others made.items) }
{
    element_laws::<F>();
    let mut terms: Terms = SmallVec::new(alloc);
    add_composed(&mut terms, seam, &unit(dots), &unit(others), F::of(1))?;
    Ok(terms)
}

/// The term with these dots and the coefficient 1.
fn unit(dots: u64) -> Term
    ensures { result ≡ dotted_term dots 1 }
{
    Term {
        dots,
        coefficient: 1,
    }
}
