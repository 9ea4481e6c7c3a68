//! The table of named packets, each row once.

/// Calls a macro with a row for each named packet: its name with its fields, the pipes that carry
/// it, its flags, and its commands with the fields that they have.
///
/// The packets of opening, flow control and pings are those of MS-RPCH 2.2.4, each of opening with
/// its section. Those of replacement (`InR..`, `OutR..`) and of a clean end (`End..`) follow its
/// pattern and are (profile).
macro_rules! named_packets {
    ($rows:ident) => {
        $rows! {
            // MS-RPCH 2.2.4.2
            ConnA1(version, connection, channel, window) on CoU is NONE
                [Version(version), Cookie(connection), Cookie(channel), ReceiveWindowSize(window)];
            // MS-RPCH 2.2.4.3
            ConnA2(version, connection, channel, lifetime, window) on OsU is OUT_CHANNEL
                [Version(version), Cookie(connection), Cookie(channel), ChannelLifetime(lifetime),
                ReceiveWindowSize(window)];
            // MS-RPCH 2.2.4.4
            ConnA3(timeout) on CoD is NONE [ConnectionTimeout(timeout)];
            // MS-RPCH 2.2.4.5
            ConnB1(version, connection, channel, lifetime, keepalive, group) on CiU is NONE
                [Version(version), Cookie(connection), Cookie(channel), ChannelLifetime(lifetime),
                ClientKeepalive(keepalive), AssociationGroupId(group)];
            // MS-RPCH 2.2.4.6
            ConnB2(version, connection, channel, window, timeout, group, address, padding)
                on IsU is IN_CHANNEL
                [Version(version), Cookie(connection), Cookie(channel), ReceiveWindowSize(window),
                ConnectionTimeout(timeout), AssociationGroupId(group),
                ClientAddress { address, padding }];
            // MS-RPCH 2.2.4.7
            ConnB3(window, version) on IsD is NONE [ReceiveWindowSize(window), Version(version)];
            // MS-RPCH 2.2.4.8
            ConnC1(version, window, timeout) on OsD is NONE
                [Version(version), ReceiveWindowSize(window), ConnectionTimeout(timeout)];
            // MS-RPCH 2.2.4.9
            ConnC2(version, window, timeout) on CoD is NONE
                [Version(version), ReceiveWindowSize(window), ConnectionTimeout(timeout)];
            // (profile)
            InR1A1(version, connection, predecessor, successor) on CiU is RECYCLE_CHANNEL
                [Version(version), Cookie(connection), Cookie(predecessor), Cookie(successor)];
            InR1A2(version, connection, predecessor, successor, window, timeout)
                on IsU is IN_CHANNEL | RECYCLE_CHANNEL
                [Version(version), Cookie(connection), Cookie(predecessor), Cookie(successor),
                ReceiveWindowSize(window), ConnectionTimeout(timeout)];
            InR1A3(destination, version, window, timeout) on OsD is NONE
                [Destination(destination), Version(version), ReceiveWindowSize(window),
                ConnectionTimeout(timeout)];
            InR1A4(destination, version, window, timeout) on CoD is NONE
                [Destination(destination), Version(version), ReceiveWindowSize(window),
                ConnectionTimeout(timeout)];
            InR1A5(successor) on CiU is NONE [Cookie(successor)];
            InR1A6(successor) on IsU is NONE [Cookie(successor)];
            InR1B1 on IsD is NONE [Empty];
            InR1B2(window) on IsD is NONE [ReceiveWindowSize(window)];
            InR2A2(successor) on IsU is IN_CHANNEL | RECYCLE_CHANNEL [Cookie(successor)];
            InR2A3(destination) on OsD is NONE [Destination(destination)];
            InR2A4(destination) on CoD is NONE [Destination(destination)];
            OutR1A1(destination) on OsD is RECYCLE_CHANNEL [Destination(destination)];
            OutR1A2(destination) on CoD is RECYCLE_CHANNEL [Destination(destination)];
            OutR1A3(version, connection, predecessor, successor, window) on CoU is RECYCLE_CHANNEL
                [Version(version), Cookie(connection), Cookie(predecessor), Cookie(successor),
                ReceiveWindowSize(window)];
            OutR2C1 on CoU is PING [Empty];
            OutR1A4(version, connection, predecessor, successor, lifetime, window, timeout)
                on OsU is OUT_CHANNEL | RECYCLE_CHANNEL
                [Version(version), Cookie(connection), Cookie(predecessor), Cookie(successor),
                ChannelLifetime(lifetime), ReceiveWindowSize(window), ConnectionTimeout(timeout)];
            OutR1A5(destination, version, timeout) on OsD is OUT_CHANNEL
                [Destination(destination), Version(version), ConnectionTimeout(timeout)];
            OutR1A6(destination, version, timeout) on CoD is OUT_CHANNEL
                [Destination(destination), Version(version), ConnectionTimeout(timeout)];
            OutR1A7(destination, successor) on CiU is OUT_CHANNEL
                [Destination(destination), Cookie(successor)];
            OutR1A8(destination, successor) on IsU is OUT_CHANNEL
                [Destination(destination), Cookie(successor)];
            OutR1A9 on OsD is NONE [Ance];
            OutR1A10 on CoD is NONE [Ance];
            EndA1 on CiU is EOF [Empty];
            EndA2 on IsU is EOF [Empty];
            EndB1 on OsD is EOF [Empty];
            EndB2 on CoD is EOF [Empty];
            // MS-RPCH 2.2.4
            Ack(received, window, cookie) on IsD | OsU is OTHER_CMD
                [FlowControlAck { received, window, cookie }];
            AckTo(destination, received, window, cookie) on CiU | IsU | OsD | CoD is OTHER_CMD
                [Destination(destination), FlowControlAck { received, window, cookie }];
            KeepAlive(keepalive) on CiU is OTHER_CMD [ClientKeepalive(keepalive)];
            PingTraffic(bytes) on OsU is OTHER_CMD [PingTrafficSentNotify(bytes)];
            Ping on CiU | IsU | IsD | CoD | OsU | OsD is PING [];
        }
    };
}

pub(crate) use named_packets;
