//! What the table keeps of a seat: a record of `specs/`.

use std::marker::Model;

/// What the table keeps of a seat. No value of it is made.
pub struct View;

impl Model for View {
    ghost use Rattle.lock_moves.specs.SeatSight.{View, spent_view};

    ghost Value = { View };

    ghost view = { λ _. spent_view };
}
