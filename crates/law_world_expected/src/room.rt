//! No node closes for a full leg, where its role has room for the packets that it forwards; and
//! each has. Its functions do nothing of their own: their contracts are the laws.

pub mod having;
pub mod recordings;
pub mod worlds;

pub use having::no_node_that_has_room_closes_for_a_full_leg;
pub use recordings::no_node_of_a_recording_lacks_room;
pub use worlds::no_node_lacks_room;
