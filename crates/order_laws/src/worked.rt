//! A worked order of crossings.

ghost use Rattle.std.specs.Prelude.{◌≡◌, pos, neg_ℤ, reverse};
ghost use Rattle.kh_types.specs.WorkedCodes.{trefoil};
ghost use Rattle.cell_laws.specs.Cells.{dimension_at};
ghost use Rattle.cell_laws.specs.Cubes.{cube_of};
ghost use Rattle.order_laws.specs.Orders.{IsReordered};

/// The trefoil with its crossings listed the other way round.
pub fn known_orders()
    ensures other { IsReordered trefoil.crossings (reverse trefoil.crossings) }
    ensures dimension { dimension_at 2 (cube_of 2 (record trefoil { crossings = reverse trefoil.crossings }) 0 3)
        (neg_ℤ (pos 2)) (neg_ℤ (pos 7)) ≡ 1 }
{}
