//! Packets made of their parts.

use rh_rts::{Bytes, Command, Cookie, NoRoom, Packet, PacketFault, encode};
use std::test::Fail;
use test_vectors::packets::CONN_A1;

// A cookie of 15 zero bytes and this one.
const fn cookie(last: u8) -> Cookie {
    Cookie([0, 0, 0, 0, 0, 0, 0, 0, 0, 0, 0, 0, 0, 0, 0, last])
}

#[test]
fn a_packet_is_encoded_as_by_hand(rt: HostRuntime) -> Result<(), Fail> {
    let commands = vec![in rt.alloc();
        Command::Version(1),
        Command::Cookie(cookie(1)),
        Command::Cookie(cookie(3)),
        Command::ReceiveWindowSize(65_536),
    ]?;
    let packet = Packet::new(rt.alloc(), 0, &commands)?;
    let mut room = [0xee; 80];
    assert_eq!(rt; encode(&packet, &mut room), Ok(76));
    assert!(rt; room.starts_with(&CONN_A1));
    assert!(rt; room.ends_with(&[0xee; 4]));
    let mut short = [0xee; 75];
    assert_eq!(rt; encode(&packet, &mut short), Err(NoRoom { need: 76 }));
    assert_eq!(rt; short, [0xee; 75]);
    Ok(())
}

// No packet has these flags and commands, for this fault.
fn is_refused(
    rt: HostRuntime,
    flags: u16,
    commands: &[Command],
    fault: PacketFault,
) -> Result<(), Fail> {
    match Packet::new(rt.alloc(), flags, commands) {
        Err(found) if found == fault => Ok(()),
        _ => Err("another answer".into()),
    }
}

#[test]
fn parts_are_refused_in_order(rt: HostRuntime) -> Result<(), Fail> {
    is_refused(rt, 0x0180, &[], PacketFault::BadFlags(0x0180))?;
    let padding = Bytes::new(vec![in rt.alloc(); 1; 65_508]?);
    let mut commands = vec![in rt.alloc();
        Command::Padding(padding),
        Command::Destination(3),
        Command::Destination(4),
        Command::Destination(5),
    ]?;
    is_refused(rt, 0x0180, &commands, PacketFault::BadFlags(0x0180))?;
    is_refused(rt, 0, &commands, PacketFault::BadDestination(4))?;
    commands.truncate(1);
    is_refused(rt, 0, &commands, PacketFault::TooLong(65_536))?;
    Ok(())
}

#[test]
fn the_longest_packet_has_65535_bytes(rt: HostRuntime) -> Result<(), Fail> {
    let padding = Bytes::new(vec![in rt.alloc(); 1; 65_507]?);
    let commands = vec![in rt.alloc(); Command::Padding(padding)]?;
    let longest = Packet::new(rt.alloc(), 0x007f, &commands)?;
    assert_eq!(rt; (longest.length(), longest.flags()), (65_535, 0x007f));
    let lent = longest.commands().first().map(Command::borrowed);
    assert_eq!(rt; lent, commands.first().map(Command::borrowed));
    Ok(())
}
