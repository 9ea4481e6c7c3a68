//! The names of packets, and the pipes that carry them.

/// A leg and the direction on it that packets go.
///
/// `Ci` and `Is` are the legs of an IN channel: client to in proxy, in proxy to server. `Co` and
/// `Os` are those of an OUT channel: client to out proxy, out proxy to server. `U` is towards the
/// server, `D` towards the client. No packet goes from an in proxy to the client.
#[derive(Clone, Copy, Debug, PartialEq, Eq)]
pub enum Pipe {
    CiU,
    IsU,
    IsD,
    CoU,
    CoD,
    OsU,
    OsD,
}

/// The name of a packet, without stroke and underscore: `ConnA1` is CONN/A1.
///
/// The names of opening, flow control and pings are of MS-RPCH 2.2.4; those of replacement
/// (`InR1..` by another in proxy, `InR2..` by the same one, `OutR..`) and of a clean end (`End..`)
/// are (profile).
#[derive(Clone, Copy, Debug, PartialEq, Eq)]
pub enum Name {
    ConnA1,
    ConnA2,
    ConnA3,
    ConnB1,
    ConnB2,
    ConnB3,
    ConnC1,
    ConnC2,
    InR1A1,
    InR1A2,
    InR1A3,
    InR1A4,
    InR1A5,
    InR1A6,
    InR1B1,
    InR1B2,
    InR2A2,
    InR2A3,
    InR2A4,
    OutR1A1,
    OutR1A2,
    OutR1A3,
    OutR2C1,
    OutR1A4,
    OutR1A5,
    OutR1A6,
    OutR1A7,
    OutR1A8,
    OutR1A9,
    OutR1A10,
    EndA1,
    EndA2,
    EndB1,
    EndB2,
    Ack,
    AckTo,
    KeepAlive,
    PingTraffic,
    Ping,
}
