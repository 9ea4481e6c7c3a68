//! No client is opened too early. Its function calls the laws that it stands on: its contract is
//! the law.

ghost use Rattle.std.specs.Prelude.{ℕ};
ghost use Rattle.rh_client.specs.State.{ci, co};
ghost use Rattle.law_role_client_rows.specs.Putting.{OpenedBefore};
ghost use Rattle.law_peers_moments.specs.Moments.{IsMoment, Moves, Numbers};

use law_role_client::{a_client_names_its_in_channels, a_client_names_its_out_channels};
use law_role_inproxy::an_in_proxy_puts_for_what_came;
use law_role_outproxy::{an_out_proxy_forwards_what_came, an_out_proxy_opens_what_came};
use law_role_server::a_server_opens_once;

/// At each moment of a virtual connection: CONN/C2 came to the client only behind the CONN/B1 and
/// the CONN/A1 that it put. So the second channel of each direction names the first one's cookie
/// (MS-RPCH 3.2.2.5; profile).
pub fn no_client_is_opened_early()
    ensures ins { (numbers : Numbers) (reader : ℕ → ℕ) (moves : Moves)
        → IsMoment numbers reader moves
        → OpenedBefore numbers.client moves.client (ci 1) → ⊥ }
    ensures outs { (numbers : Numbers) (reader : ℕ → ℕ) (moves : Moves)
        → IsMoment numbers reader moves
        → OpenedBefore numbers.client moves.client (co 1) → ⊥ }
{
    a_client_names_its_in_channels();
    a_client_names_its_out_channels();
    a_server_opens_once();
    an_in_proxy_puts_for_what_came();
    an_out_proxy_forwards_what_came();
    an_out_proxy_opens_what_came();
}
