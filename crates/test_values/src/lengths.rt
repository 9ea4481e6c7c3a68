//! The lengths of packets that the roles count before they are put.

use rh_rts::Cookie;
use rh_sig::lengths::{
    ACK_TO_LEN, CONN_B1_LEN, END_A1_LEN, IN_R1_A1_LEN, IN_R1_A5_LEN, OUT_R1_A7_LEN, PING_LEN,
};
use rh_sig::{Named, write_named};
use std::process::Abort;
use std::test::Fail;

fn cookie(number: u8) -> Cookie {
    let mut bytes = [0; 16];
    bytes[15] = number;
    Cookie(bytes)
}

/// How many bytes a packet has; 0 where it cannot be written.
fn length(packet: Named) -> usize {
    let mut room = [0; 200];
    if !packet.may_be_written() {
        return 0;
    }
    write_named(&packet, &mut room).unwrap_or(0)
}

#[test]
fn the_lengths_are_those_of_the_packets(rt: HostRuntime) -> Result<(), Fail> {
    let packets = [
        (
            Named::ConnB1(1, cookie(1), cookie(2), 131_072, 0, cookie(3)),
            CONN_B1_LEN,
        ),
        (
            Named::InR1A1(1, cookie(1), cookie(2), cookie(3)),
            IN_R1_A1_LEN,
        ),
        (Named::InR1A5(cookie(1)), IN_R1_A5_LEN),
        (Named::OutR1A7(2, cookie(1)), OUT_R1_A7_LEN),
        (Named::EndA1, END_A1_LEN),
        (Named::AckTo(3, 1, 2, cookie(1)), ACK_TO_LEN),
        (Named::Ping, PING_LEN),
    ];
    for (packet, len) in packets {
        assert!(rt; length(packet) == usize::from(len), "{packet:?}");
    }
    Ok(())
}
