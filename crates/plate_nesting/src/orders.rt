//! What holds of each burning order, as contracts of functions that do nothing.
ghost use Rattle.plate_nesting.specs.OneOrder.{EachIsBurntOnce, EachIsWithin, OrderIsOne};

/// No component burns twice.
pub fn each_is_burnt_once()
    ensures { EachIsBurntOnce }
{}

/// Nothing burns that isn't a component.
pub fn each_is_within()
    ensures { EachIsWithin }
{}

/// Components burn in one order alone.
pub fn burning_order_is_one()
    ensures { OrderIsOne }
{}
