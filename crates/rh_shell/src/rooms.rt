//! How many legs may be unfinished at once.

/// How many legs of each kind may be unfinished at once. A node takes as much memory when it is
/// made.
#[derive(Clone, Copy)]
pub struct Rooms {
    pub client_out: u8,
    pub out_server: u8,
    pub client_in: u8,
    pub in_server: u8,
}
