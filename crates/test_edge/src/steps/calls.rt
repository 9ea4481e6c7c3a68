//! Calls of a net.

use super::halves::{Half, Leg};
use rh_net::{Address, Net, NetCounts, Ready, Way};

/// A call of a net, and what comes of it.
#[derive(Clone, Copy)]
pub enum Call {
    /// It listens at the address.
    Listens,
    /// It can't listen.
    FailsToListen,
    /// It connects to the address, which gives a leg.
    Connects,
    /// It can't connect.
    FailsToConnect,
    /// It accepts, which gives a leg.
    Accepts,
    /// It can't accept.
    FailsToAccept,
    /// Nobody comes whom it could accept.
    MeetsNobody,
    /// It takes the half of a leg back.
    TakesBack(usize, Half),
    /// Its faults, legs given, faults of legs and ends of legs are so many.
    Counts(u64, u64, u64, u64),
}

/// A net that tells its counts.
pub trait Told: Net {
    fn told(&self) -> NetCounts;
}

// What comes of a call for a leg.
#[derive(Drop)]
enum Met<I: Drop, O: Drop> {
    Leg(Leg<I, O>),
    Failure,
    Nobody,
}

impl Call {
    /// Whether that comes of it.
    pub fn holds<N: Told>(
        self,
        net: &mut N,
        at: &Address,
        legs: &mut Vec<Leg<N::In, N::Out>>,
    ) -> bool
    where
        N::In: Ready + Drop,
        N::Out: Drop,
    {
        match self {
            Call::Listens => listens(net, at),
            Call::FailsToListen => !listens(net, at),
            Call::Connects => keeps(connect(net, at), legs),
            Call::FailsToConnect => fails(connect(net, at)),
            Call::Accepts => keeps(accept(net), legs),
            Call::FailsToAccept => fails(accept(net)),
            Call::MeetsNobody => meets_nobody(accept(net)),
            Call::TakesBack(leg, half) => takes_back(net, legs, leg, half),
            Call::Counts(faults, given, leg_faults, leg_ends) => {
                let counts = NetCounts {
                    faults,
                    given,
                    leg_faults,
                    leg_ends,
                };
                net.told() == counts
            }
        }
    }
}

fn listens<N: Net>(net: &mut N, at: &Address) -> bool {
    net.listen(at).is_ok()
}

fn connect<N: Net>(net: &mut N, to: &Address) -> Met<N::In, N::Out> {
    let Ok(mut way) = net.way() else {
        return Met::Failure;
    };
    let came = way.connect(to);
    given(net, came)
}

fn accept<N: Net>(net: &mut N) -> Met<N::In, N::Out> {
    let Ok(mut way) = net.way() else {
        return Met::Failure;
    };
    match way.accept() {
        Some(came) => given(net, came),
        None => Met::Nobody,
    }
}

fn given<N: Net>(net: &mut N, came: N::Came) -> Met<N::In, N::Out> {
    match net.gives(came) {
        Ok((source, sink)) => Met::Leg(Leg {
            source: Some(source),
            sink: Some(sink),
        }),
        Err(_) => Met::Failure,
    }
}

fn keeps<I: Drop, O: Drop>(met: Met<I, O>, legs: &mut Vec<Leg<I, O>>) -> bool {
    match met {
        Met::Leg(leg) => legs.push(leg).is_ok(),
        Met::Failure | Met::Nobody => false,
    }
}

fn fails<I: Drop, O: Drop>(met: Met<I, O>) -> bool {
    matches!(met, Met::Failure)
}

fn meets_nobody<I: Drop, O: Drop>(met: Met<I, O>) -> bool {
    matches!(met, Met::Nobody)
}

fn takes_back<N: Net>(
    net: &mut N,
    legs: &mut Vec<Leg<N::In, N::Out>>,
    leg: usize,
    half: Half,
) -> bool
where
    N::In: Drop,
    N::Out: Drop,
{
    if legs.len() <= leg {
        return false;
    }
    match half {
        Half::Source => match legs[leg].source.take() {
            Some(source) => {
                net.back_in(source);
                true
            }
            None => false,
        },
        Half::Sink => match legs[leg].sink.take() {
            Some(sink) => {
                net.back_out(sink);
                true
            }
            None => false,
        },
    }
}
