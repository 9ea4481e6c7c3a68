//! When the ends of the real roles give no more. These functions do nothing: their contracts are
//! the laws.

ghost use Rattle.std.specs.Prelude.{ℕ};
ghost use Rattle.rh_http.specs.declared.config.ClientConfig.{ClientConfig};
ghost use Rattle.rh_client.specs.declared.state.ClientRole.{ClientRole};
ghost use Rattle.rh_client.specs.Client as client;
ghost use Rattle.rh_server.specs.States.{Server, is_closing};
ghost use Rattle.rh_server.specs.Servers as server;
ghost use Rattle.law_world_reports.specs.Ordering.Ends.{GivesUntilClosing};

use law_moves::ends_move_by_their_rules;
use law_node_ends::{a_client_that_closes_gives_no_more, a_server_that_closes_gives_no_more};
use rh_client::ClientRole;
use rh_server::ServerRole;

/// A client accepts no PDU once it was told to close, whatever happens then.
pub fn a_client_gives_until_it_is_told_to_close()
    ensures { (config : ClientConfig) → GivesUntilClosing client.rules client.acts
        (λ (s : ClientRole). s.is_closing) (client.first_client config) }
{
    a_client_that_closes_gives_no_more();
    ends_move_by_their_rules::<ClientRole>();
}

/// So it is with a server.
pub fn a_server_gives_until_it_is_told_to_close()
    ensures { (window : ℕ) → GivesUntilClosing server.rules server.acts
        (λ (s : Server). is_closing s.giving) (server.new_server window) }
{
    a_server_that_closes_gives_no_more();
    ends_move_by_their_rules::<ServerRole>();
}
