//! Places at which a test may hold a thread.

use rh_line::Leg;

/// A place that a reader or a writer of a leg passes.
#[derive(Clone, Copy)]
pub enum Place {
    /// Before each read.
    ReaderBefore(Leg),
    /// Behind each piece that was fed.
    ReaderAfter(Leg),
    /// Before each draw.
    WriterBefore(Leg),
    /// Behind each draw, before its bytes are written.
    WriterAfter(Leg),
}

/// What may hold a thread at a place.
pub trait Gate {
    fn pass(&self, place: Place);
}

/// Holds none.
#[derive(Clone, Copy, Debug)]
pub struct NoGate;

impl Gate for NoGate {
    fn pass(&self, _place: Place) {}
}
