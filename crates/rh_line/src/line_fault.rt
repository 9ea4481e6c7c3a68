//! Why a PDU is not admitted.

use rh_window::WindowExceeded;

/// Why a PDU is not admitted. Nothing has changed then.
#[derive(Clone, Copy, Debug, PartialEq, Eq)]
pub enum LineFault {
    /// It ends behind what its sender was told (MS-RPCH 3.2).
    Window(WindowExceeded),
    /// END came on its channel.
    Over,
}
