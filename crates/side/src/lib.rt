// Sides of a corner, after 000's `Side`, and lengths along them.
#![tactic(auto, unfolding(crate::specs::Side::is_straight_side, crate::specs::Side::unit, crate::specs::Side::length_of, crate::specs::Side::chord_of, crate::specs::Side::share, crate::specs::Side::at_line, crate::specs::Side::at_length, crate::specs::Side::at_curve, crate::specs::Side::OnLine, crate::specs::Side::Serves, geom::specs::Point::dist))]

mod side;
mod table;

pub use side::{At, Heading, Side, is_straight_side, unit};
