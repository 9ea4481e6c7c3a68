//! Which words are which role's.

ghost use Rattle.std.specs.Prelude.{◌≡◌, ◌∷◌, ℕ, [], IfOk, MatchOption, codes};
ghost use Rattle.rh_role_words.specs.Making.{ListensAt, UsesProxies};
ghost use Rattle.rh_role_words.specs.Forms.{IsCount, IsNoRoleForm, IsRoleForm, texts};

use crate::addresses::{HostPort, HostPorts, host_port_of, host_ports_of};
use rh_io::NoMemory;
use rh_keepers::Plan;
use rh_text::read_number;
use std::alloc::Global;

/// The most channels of a proxy.
pub const MOST_CHANNELS: u32 = 64;

/// What the words of a role say.
#[derive(Drop)]
pub enum RoleForm {
    /// `client <host:port> <ins> <outs>`: the server of its requests, and its proxies.
    Client {
        server: HostPort,
        ins: HostPorts,
        outs: HostPorts,
    },
    /// `inproxy <host:port> <count>`: where it listens, and for how many channels, 1 to 64.
    InProxy {
        at: HostPort,
        count: u32,
    },
    /// `outproxy <host:port> <count>`, likewise.
    OutProxy {
        at: HostPort,
        count: u32,
    },
    /// `server <host:port>`: where it listens.
    Server {
        at: HostPort,
    },
}

impl RoleForm {
    ghost use Rattle.rh_role_words.specs.Making.{IsPlanOf};

    /// Where its nodes listen, and which proxies they use. Fails where there is no memory.
    pub fn plan(&self, alloc: Global) -> Result<Plan, NoMemory>
        ensures { IfOk result (λ plan. IsPlanOf self.now plan) }
    {
        match self {
            RoleForm::Client { ins, outs, .. } => plan_by(alloc, ins, outs),
            RoleForm::InProxy { at, .. } => Ok(plan_at(alloc, at)),
            RoleForm::OutProxy { at, .. } => Ok(plan_at(alloc, at)),
            RoleForm::Server { at } => Ok(plan_at(alloc, at)),
        }
    }
}

// The plan of a role that listens.
fn plan_at(alloc: Global, at: &HostPort) -> Plan
    ensures { ListensAt result at.now }
{
    Plan {
        at: Some(at.address()),
        ins: Vec::new(alloc),
        outs: Vec::new(alloc),
    }
}

// The plan of a client.
fn plan_by(alloc: Global, ins: &HostPorts, outs: &HostPorts) -> Result<Plan, NoMemory>
    ensures { IfOk result (λ plan. UsesProxies plan ins.now outs.now) }
{
    Ok(Plan {
        at: None,
        ins: ins.addresses(alloc)?,
        outs: outs.addresses(alloc)?,
    })
}

/// The form of the words behind the program's own name; `None` where they are no role's. Fails
/// where there is no memory.
pub fn role_form_of(alloc: Global, words: &[String]) -> Result<Option<RoleForm>, NoMemory>
    ensures { IfOk result (λ found. MatchOption found (IsNoRoleForm (texts words.now))
        (λ form. IsRoleForm form (texts words.now))) }
{
    match words {
        [role, at] => Ok(form_of_two(role.as_str(), at.as_bytes())),
        [role, at, count] => Ok(form_of_three(role.as_str(), at.as_bytes(), count.as_bytes())),
        [role, server, ins, outs] => form_of_four(
            alloc,
            role.as_str(),
            server.as_bytes(),
            ins.as_bytes(),
            outs.as_bytes(),
        ),
        _ => Ok(None),
    }
}

// The form of a word and an address.
fn form_of_two(role: &str, at: &[u8]) -> Option<RoleForm>
    ensures { MatchOption result (IsNoRoleForm (role.now ∷ at.now ∷ []))
        (λ form. IsRoleForm form (role.now ∷ at.now ∷ [])) }
{
    match role {
        "server" => Some(RoleForm::Server {
            at: host_port_of(at)?,
        }),
        _ => None,
    }
}

// The form of a word, an address and a count.
fn form_of_three(role: &str, at: &[u8], count: &[u8]) -> Option<RoleForm>
    ensures { MatchOption result (IsNoRoleForm (role.now ∷ at.now ∷ count.now ∷ []))
        (λ form. IsRoleForm form (role.now ∷ at.now ∷ count.now ∷ [])) }
{
    match role {
        "inproxy" => Some(RoleForm::InProxy {
            at: host_port_of(at)?,
            count: count_of(count)?,
        }),
        "outproxy" => Some(RoleForm::OutProxy {
            at: host_port_of(at)?,
            count: count_of(count)?,
        }),
        _ => None,
    }
}

// The form of a word, an address and two lists of addresses.
fn form_of_four(
    alloc: Global,
    role: &str,
    server: &[u8],
    ins: &[u8],
    outs: &[u8],
) -> Result<Option<RoleForm>, NoMemory>
    ensures { IfOk result (λ found. MatchOption found
        (IsNoRoleForm (role.now ∷ server.now ∷ ins.now ∷ outs.now ∷ []))
        (λ form. IsRoleForm form (role.now ∷ server.now ∷ ins.now ∷ outs.now ∷ []))) }
{
    match role {
        "client" => client_of(alloc, server, ins, outs),
        _ => Ok(None),
    }
}

// The number of channels that a word spells.
fn count_of(word: &[u8]) -> Option<u32>
    ensures { MatchOption result ((count : ℕ) → ¬ IsCount word.now count)
        (λ count. IsCount word.now count) }
{
    let count = read_number(word, 1, u64::from(MOST_CHANNELS))?;
    Some(count as u32)
}

// The form of a client's words.
fn client_of(
    alloc: Global,
    server: &[u8],
    ins: &[u8],
    outs: &[u8],
) -> Result<Option<RoleForm>, NoMemory>
    ensures { IfOk result (λ found. MatchOption found
        (IsNoRoleForm (codes "client" ∷ server.now ∷ ins.now ∷ outs.now ∷ []))
        (λ form. IsRoleForm form (codes "client" ∷ server.now ∷ ins.now ∷ outs.now ∷ []))) }
{
    let Some(server) = host_port_of(server) else {
        return Ok(None);
    };
    let Some(ins) = host_ports_of(alloc, ins)? else {
        return Ok(None);
    };
    let Some(outs) = host_ports_of(alloc, outs)? else {
        return Ok(None);
    };
    Ok(Some(RoleForm::Client { server, ins, outs }))
}
