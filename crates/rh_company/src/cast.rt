//! Who plays: the four roles of a virtual connection, and how their nodes are made.

use rh_rts::Cookie;
use rh_shell::{EndRole, Role, Shell};
use std::alloc::{AllocError, Global};

/// The four roles, and how a world makes the node of each. A node that was just made has no leg,
/// and its moment is 0.
pub trait Cast: Drop {
    ghost use Rattle.std.specs.Prelude.{◌≡◌, ℕ, ◌<◌, IfOk};
    ghost use Rattle.rh_rts.specs.declared.command.Cookie.{Cookie};
    ghost use Rattle.rh_shell.specs.Shells.{Shell};

    type Client: EndRole;

    type Server: EndRole;

    type InProxy: Role;

    type OutProxy: Role;

    ghost client: { Self → Cookie → Cookie → Shell Self.Client };

    ghost server: { Self → Shell Self.Server };

    ghost in_proxy: { Self → ℕ → Shell Self.InProxy };

    ghost out_proxy: { Self → ℕ → Shell Self.OutProxy };

    /// The client, of the virtual connection and the association group that these cookies name.
    fn client(
        &self,
        alloc: Global,
        connection: Cookie,
        group: Cookie,
    ) -> Result<Shell<Self::Client>, AllocError>
        ensures { IfOk result (λ node. node ≡ client self.now connection group) };

    /// The server.
    fn server(&self, alloc: Global) -> Result<Shell<Self::Server>, AllocError>
        ensures { IfOk result (λ node. node ≡ server self.now) };

    /// The in proxy that is made for the channel of this number, from 1.
    fn in_proxy(&self, alloc: Global, number: u32) -> Result<Shell<Self::InProxy>, AllocError>
        requires { 0 < number }
        ensures { IfOk result (λ node. node ≡ in_proxy self.now number) };

    /// The out proxy that is made for the channel of this number, from 1.
    fn out_proxy(&self, alloc: Global, number: u32) -> Result<Shell<Self::OutProxy>, AllocError>
        requires { 0 < number }
        ensures { IfOk result (λ node. node ≡ out_proxy self.now number) };
}
