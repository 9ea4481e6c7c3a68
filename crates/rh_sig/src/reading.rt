//! Which named packet a packet is.

ghost use Rattle.std.specs.Prelude.{◌≡◌, MatchOption, MatchResult};
ghost use Rattle.rh_sig.specs.Names.{IsNamed, IsNameless};
ghost use Rattle.rh_sig.specs.Values.{commands_of, ReadsAs, AreInRange, IsRefused};
ghost use Rattle.rh_sig.specs.Naming.{name_on, named_of};

use crate::fault::SigFault;
use crate::few_commands::without_padding;
use crate::name::{Name, Pipe};
use crate::named::Named;
use crate::naming::name_by;
use crate::ranges::first_out_of_range;
use crate::values::value_by;
use rh_rts::View;

/// The name of the packet on this pipe, unless no name fits.
pub fn name_of(view: &View<'_>, pipe: Pipe) -> Option<Name>
    ensures named { MatchOption result (IsNameless view.now pipe)
        (λ name. IsNamed view.now pipe name) }
    ensures computed { result ≡ name_on view.now pipe }
{
    find_name(view, pipe)
}

/// Finds the name, from which the laws of `name_of` follow.
#[tactic(auto, unfolding(crate::specs::Naming::name_on))]
fn find_name(view: &View<'_>, pipe: Pipe) -> Option<Name>
    ensures { result ≡ name_on view.now pipe }
{
    let kept = without_padding(view)?;
    name_by(pipe, view.flags(), kept.types())
}

/// The named packet that the packet is on this pipe, with all its values in range.
///
/// Fails with `Unknown` where no name fits; else with `OutOfRange` for the first command whose
/// value is out of range. The ranges are those of `ranges`; an acknowledgement has none.
pub fn read_named(view: &View<'_>, pipe: Pipe) -> Result<Named, SigFault>
    ensures reads { MatchResult result
        (λ named. ReadsAs view.now pipe named × AreInRange (commands_of named))
        (λ fault. IsRefused view.now pipe fault) }
    ensures computed { result ≡ named_of view.now pipe }
{
    read(view, pipe)
}

/// Reads the packet, from which the laws of `read_named` follow.
#[tactic(auto, unfolding(crate::specs::Naming::name_on, crate::specs::Naming::named_of))]
fn read(view: &View<'_>, pipe: Pipe) -> Result<Named, SigFault>
    ensures { result ≡ named_of view.now pipe }
{
    let Some(kept) = without_padding(view) else {
        return Err(SigFault::Unknown);
    };
    let Some(name) = name_by(pipe, view.flags(), kept.types()) else {
        return Err(SigFault::Unknown);
    };
    if let Some(fault) = first_out_of_range(kept.commands()) {
        return Err(fault);
    }
    Ok(value_by(name, kept.commands()))
}
