//! Which names a packet has.

ghost use Rattle.std.specs.Prelude.{◌≡◌};
ghost use Rattle.rh_name.specs.Telling.{names_of};

use crate::few_names::FewNames;
use rh_rts::View;
use rh_sig::{Pipe, name_of};

/// The names that the packet has on this pipe, or on any one where none is told: by the table that
/// the roles read packets by.
pub(crate) fn names_of(packet: &View<'_>, pipe: Option<Pipe>) -> FewNames
    ensures { result ≡ names_of packet.now pipe }
{
    let mut names = FewNames::new();
    match pipe {
        Some(pipe) => names.add(name_of(packet, pipe)),
        None => {
            // From leg to leg, as packets go on.
            names.add(name_of(packet, Pipe::CiU));
            names.add(name_of(packet, Pipe::IsU));
            names.add(name_of(packet, Pipe::IsD));
            names.add(name_of(packet, Pipe::CoU));
            names.add(name_of(packet, Pipe::OsU));
            names.add(name_of(packet, Pipe::OsD));
            names.add(name_of(packet, Pipe::CoD));
        }
    }
    names
}
