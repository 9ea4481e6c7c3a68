//! What the jobs of a slot are given.

ghost use Rattle.std.specs.Prelude.{◌≡◌, []};

use crate::hand_over::HandOver;
use crate::slot::Served;
use rh_machines::PieceRoom;
use std::alloc::Global;
use std::sync::Arc;

/// What a slot's job serves: its legs, in the order in which the keeper hands them over.
#[derive(Drop)]
pub struct Serving<T: Drop, K: Drop, G: Drop> {
    /// Where its legs come from.
    pub legs: Arc<HandOver<T>, Global>,
    /// What it passes before and behind each piece.
    pub gate: Arc<G, Global>,
    /// For one piece.
    pub room: PieceRoom,
    /// For its legs, as they are served.
    pub kept: Vec<Served<K>>,
    pub ghost none: { kept.items ≡ [] },
}
