//! The edges that a server passes on. Its function does nothing: its contract is the law.

ghost use Rattle.std.specs.Prelude.{List, ℕ};
ghost use Rattle.rh_rts.specs.declared.command.Cookie.{Cookie};
ghost use Rattle.rh_server.specs.Servers.{acts, first, rules};
ghost use Rattle.law_moves.specs.Moves.{EndMove, all_end_moved, end_started};
ghost use Rattle.law_role_server_edges.specs.Passing.{PassesEdgesOn};

use law_moves::edges_never_fall;
use law_role_server::{a_server_opens_once, a_server_replaces_out_channels_one_by_one};

/// Whatever moves a server makes, allowed or not: of the acknowledgements to the client for a
/// channel that it took, one whose edge is as great as any was put, or waits. So it is of those to
/// an out proxy, while the server keeps the leg of that channel, where none of its cookie began on
/// another os leg: of those that came behind the packet that began the channel (MS-RPCH 3.2.1).
pub fn a_server_passes_edges_on()
    ensures { (window : ℕ) (moves : List EndMove) (cookie : Cookie) → PassesEdgesOn cookie
        (all_end_moved rules acts (end_started (first window)) moves).passage }
{
    edges_never_fall();
    a_server_opens_once();
    a_server_replaces_out_channels_one_by_one();
}
