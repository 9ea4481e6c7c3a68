//! Parts of a text, in and beyond the room where they are gathered.

use rh_text::{Part, write_parts};
use std::test::Fail;

#[test]
fn parts_stand_one_behind_the_other(rt: HostRuntime) -> Result<(), Fail> {
    let mut out = String::from_str(rt.alloc(), "first\n")?;
    let parts = [
        Part::Text("move cs u "),
        Part::Number(20),
        Part::Text(" "),
        Part::Hex(&[0x05, 0xff]),
        Part::Number(u64::MAX),
        Part::Hex(&[]),
        Part::Text(""),
    ];
    write_parts(&parts, &mut out)?;
    assert_eq!(rt;
        out.as_str(),
        "first\nmove cs u 20 05ff18446744073709551615"
    );
    Ok(())
}

#[test]
fn parts_beyond_the_room_stand_in_order(rt: HostRuntime) -> Result<(), Fail> {
    let bytes = [0xab; 200];
    let long = "a text of more than the hundred and twenty-eight bytes that are gathered before \
                they are appended, so that it goes past the room where shorter ones stand";
    for (len, front) in [
        (0, ""),
        (62, "1 "),
        (63, "1 "),
        (64, ""),
        (65, ""),
        (200, "front "),
    ] {
        let parts = [
            Part::Text(front),
            Part::Hex(&bytes[..len]),
            Part::Text(" "),
            Part::Number(7),
            Part::Text(long),
            Part::Text("\u{e9}\n"),
        ];
        let mut out = String::from_str(rt.alloc(), "> ")?;
        write_parts(&parts, &mut out)?;
        let mut wanted = String::from_str(rt.alloc(), "> ")?;
        wanted.push_str(front)?;
        for _ in 0..len {
            wanted.push_str("ab")?;
        }
        wanted.push_str(" 7")?;
        wanted.push_str(long)?;
        wanted.push_str("\u{e9}\n")?;
        assert_eq!(rt; out.as_str(), wanted.as_str(), "{len}");
    }
    Ok(())
}
