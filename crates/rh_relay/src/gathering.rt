//! How what the jobs had of the outside comes together again.

use crate::answer::Had;
use rh_net::{Address, Net};
use rh_slots::Served;

/// What came back of the outside.
#[derive(Drop)]
pub(crate) struct Back<S: Drop, W: Drop, N: Drop> {
    pub net: N,
    pub input: Option<S>,
    pub output: Option<W>,
    /// The first address at which the net failed.
    pub unreached: Option<Address>,
}

impl<S: Drop, W: Drop, N: Net + Drop> Back<S, W, N> {
    // Hands the sources of legs back to the net, in order.
    fn take_sources(&mut self, legs: Vec<Served<N::In>>) {
        for leg in legs {
            let Served { stream, .. } = leg;
            self.net.back_in(stream);
        }
    }

    // Hands the sinks of legs back to the net, in order.
    fn take_sinks(&mut self, legs: Vec<Served<N::Out>>) {
        for leg in legs {
            let Served { stream, .. } = leg;
            self.net.back_out(stream);
        }
    }

    // Takes what a keeper had.
    fn take_kept(&mut self, failed: Option<(N::In, N::Out)>, unreached: Option<Address>) {
        if let Some((source, sink)) = failed {
            self.net.back_in(source);
            self.net.back_out(sink);
        }
        if self.unreached.is_none() {
            self.unreached = unreached;
        }
    }

    /// Takes what one job had.
    pub(crate) fn take(&mut self, had: Had<S, W, N::In, N::Out>) {
        match had {
            Had::Kept { failed, unreached } => self.take_kept(failed, unreached),
            Had::Read(legs) => self.take_sources(legs),
            Had::Wrote(legs) => self.take_sinks(legs),
            Had::Input(input) => self.input = Some(input),
            Had::Output(output) => self.output = Some(output),
        }
    }
}
