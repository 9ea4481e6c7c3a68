//! The page that the program tells of itself.

use crate::status::statuses;

macro_rules! help {
    ($($status:ident $number:literal $name:literal $more:literal;)*) => {
        concat!(
            "rh_cli replays recordings of RPC over HTTP version 2 (MS-RPCH), shows its packets, and plays one of
its roles alone.

  rh_cli replay       reads a recording from standard input, writes its report to standard output
  rh_cli story        reads a recording, and tells it to people: packets and PDUs by name
  rh_cli story hex    the same, with the bytes of each in hex
  rh_cli show         reads lines of hex, one packet each, and writes one line for each packet
  rh_cli name         reads such lines, and writes what people call each packet
  rh_cli play         reads a script that tells one role what comes to it, and writes the answers
  rh_cli capture      reads a recording of roles, and writes what its run moved on the legs
  rh_cli audit        reads what was seen on legs, and writes whether PDUs were carried in order
  rh_cli make <n>     runs a generated recording of n PDUs (1 to 10,000), writes its report's last
                      lines, the bytes that moved and the rounds of its settlings
  rh_cli --help       writes this page
  rh_cli --version    writes the name and the version

A line for show has 1 to 65,535 bytes in hex digits of either case, and nothing else. A line for
name may have the leg and the direction in front: ciu, cou, cod, isu, isd, osu or osd. From a capture
that tshark reads and from a file that holds one packet, by the repository's tools and by xxd:

  tools/pcap_packets.py FILE | rh_cli show
  tools/pcap_packets.py --audit FILE | rh_cli audit
  xxd -p FILE | tr -d '\\n' | rh_cli show

A status other than 0 has its text on standard error:

",
            $("  ", $number, "  ", $name, $more, "\n",)*
        )
    };
}

/// What `--help` tells.
pub const HELP: &str = statuses!(help);
