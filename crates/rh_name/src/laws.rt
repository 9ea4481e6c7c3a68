//! That a packet has one name on a pipe, and that all its names are told where none is.

ghost use Rattle.std.specs.Prelude.{◌≡◌, ◌∷◌, [], Some};
ghost use Rattle.rh_rts.specs.Packets.{Parts};
ghost use Rattle.rh_sig.specs.declared.name.Name.{Name};
ghost use Rattle.rh_sig.specs.declared.name.Pipe.{Pipe};
ghost use Rattle.rh_sig.specs.Names.{IsNamed, IsNameless};
ghost use Rattle.rh_name.specs.Telling.{names_of};

/// Where a pipe is told, a packet has the one name of its row, or none. This function does nothing,
/// and its contract is these laws.
pub fn one_name()
    ensures one { (p : Parts) (pipe : Pipe) (name : Name) → IsNamed p pipe name
        → names_of p (Some pipe) ≡ name ∷ [] }
    ensures none { (p : Parts) (pipe : Pipe) → IsNameless p pipe → names_of p (Some pipe) ≡ [] }
{}
