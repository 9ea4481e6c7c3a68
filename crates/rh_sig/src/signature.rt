//! Signatures: the flags of a packet, and the types of its commands.

ghost use Rattle.std.specs.Prelude.{◌≡◌};
ghost use Rattle.rh_sig.specs.Looking.{fits};

/// The flags of a named packet, and the types of its commands in their order.
#[derive(Clone, Copy)]
pub struct Sig<const N: usize> {
    pub flags: u16,
    pub types: [u32; N],
}

impl<const N: usize> Sig<N> {
    /// Whether the flags and the types are these.
    #[tactic(auto, unfolding(crate::specs::Looking::fits))]
    pub fn fits(&self, flags: u16, types: &[u32]) -> bool
        ensures { result ≡ fits self.now.flags self.now.types flags types.now }
    {
        self.flags == flags && self.types.as_slice() == types
    }
}
