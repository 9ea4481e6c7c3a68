//! Numbers of channels have an end. This function does nothing: its contract is the law.

ghost use Rattle.std.specs.Prelude.{◌≡◌, suc, false, Ok, Err};
ghost use Rattle.rh_shell.specs.declared.end_role.RecycleRefused.TheVariants.{Last};
ghost use Rattle.rh_client.specs.declared.channels.TheConstants.{LAST_NUMBER};
ghost use Rattle.rh_client.specs.declared.replacement.Replacement.TheVariants.{NoneUnderWay};
ghost use Rattle.rh_client.specs.declared.state.ClientRole.{ClientRole};
ghost use Rattle.rh_client.specs.InReplacement.{recycle};
ghost use Rattle.rh_client.specs.State.{begin_in};

/// Where no replacement is under way, an IN channel of the last number, 2^32 - 1, gets no
/// successor, and nothing changes; that of the number before gets one.
pub fn the_last_channel_has_no_successor()
    ensures last { (s : ClientRole) → s.replacement ≡ NoneUnderWay
        → s.writing.number ≡ LAST_NUMBER → recycle s ≡ (s, Err Last) }
    ensures before { (s : ClientRole) → s.replacement ≡ NoneUnderWay
        → suc s.writing.number ≡ LAST_NUMBER → recycle s ≡ (begin_in s false, Ok tt) }
{}
