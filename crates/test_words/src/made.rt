//! The PDUs that a generated recording gives.

use rh_words::{MakeCount, pdu};
use std::test::Fail;

#[test]
fn pdus_have_their_sizes_and_numbers(rt: HostRuntime) -> Result<(), Fail> {
    // A number, the size, and both again by their bytes, the least first.
    for (number, size, [a, b], [c, d]) in [
        (1, 637, [125, 2], [1, 0]),
        (2, 1_250, [226, 4], [2, 0]),
        (3, 1_863, [71, 7], [3, 0]),
        (259, 3_791, [207, 14], [3, 1]),
    ] {
        let pdu = pdu(rt.alloc(), number)?;
        let front = [
            5, 0, 0, 3, 16, 0, 0, 0, a, b, 0, 0, c, d, 0, 0, c, c, c, c, c, c, c, c,
        ];
        assert!(rt;
            pdu.len() == size && pdu.as_slice().starts_with(&front),
            "{number}"
        );
    }
    Ok(())
}

#[test]
fn no_count_is_out_of_range(rt: HostRuntime) -> Result<(), Fail> {
    for (count, taken) in [(0, false), (1, true), (10_000, true), (10_001, false)] {
        assert!(rt; MakeCount::new(count).is_some() == taken);
    }
    Ok(())
}
