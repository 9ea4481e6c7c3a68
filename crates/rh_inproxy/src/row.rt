//! What a row of the in proxy's table answers.

use rh_shell::Refused;

/// A row takes what came, or why it refuses it. Nothing has changed then.
pub(crate) type Row = Result<(), Refused>;
