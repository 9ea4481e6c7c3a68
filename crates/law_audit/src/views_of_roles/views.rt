//! What order sees of roles. This function does nothing: its contract is the law.

ghost use Rattle.rh_sig.specs.declared.name.Pipe.TheVariants.{CiU, CoD, IsU, OsD};
ghost use Rattle.law_role_client.specs.Order.{down_items, up_items};
ghost use Rattle.law_role_inproxy.specs.Order.{item_came, item_put};
ghost use Rattle.law_role_outproxy.specs.Order.{from_server, to_client};
ghost use Rattle.law_role_server.specs.Order.{in_items, out_items};
ghost use Rattle.law_audit.specs.Carrying.Items.{Fits};

/// What order sees of what a role puts on a pipe, and of what comes to it there, is what an audit
/// sees in their frames: the RPC PDUs, and the handover mark alone.
pub fn what_roles_see_fits()
    ensures ci_put { Fits CiU up_items }
    ensures ci_came { Fits CiU item_came }
    ensures is_put { Fits IsU item_put }
    ensures is_came { Fits IsU in_items }
    ensures os_put { Fits OsD out_items }
    ensures os_came { Fits OsD from_server }
    ensures co_put { Fits CoD to_client }
    ensures co_came { Fits CoD down_items }
{}
