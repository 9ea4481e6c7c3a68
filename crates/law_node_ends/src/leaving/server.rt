//! Legs that a server left. Its function does nothing: its contract is the law.

ghost use Rattle.std.specs.Prelude.{ℕ};
ghost use Rattle.rh_server.specs.Servers.{first, rules, acts};
ghost use Rattle.law_node_streams.specs.Streams.{StaysUnused, StaysUnusedAtEnd};

/// A leg for which a server has no use comes in use by coming up alone, whatever is given and taken
/// there besides.
pub fn a_leg_that_a_server_left_stays_unused()
    ensures moves { (window : ℕ) → StaysUnused rules (first window) }
    ensures calls { (window : ℕ) → StaysUnusedAtEnd rules acts (first window) }
{}
