//! The requests with which a client's legs begin (MS-RPCH 2.1.2).

ghost use Rattle.std.specs.Prelude.{◌≡◌};
ghost use Rattle.rh_http.specs.Texts.{in_request, out_request};

use rh_http::{ClientConfig, write_in_request, write_out_request};
use rh_shell::Begun;

/// Room for the longest request, with two hosts of 255 characters.
const REQUEST_ROOM: usize = 1024;

/// Begins the request for an IN channel.
pub(crate) fn begin_in_request(config: &ClientConfig, begun: &mut Begun)
    ensures { begun.new ≡ in_request config.now }
{
    // Their ranges bound the length of the text.
    let (_port, _lifetime) = (config.port, config.lifetime);
    let mut room = [0; REQUEST_ROOM];
    match write_in_request(config, &mut room) {
        Ok(len) => begun.begin(&room[..len]),
        Err(_) => unreachable!(),
    }
}

/// Begins the request for an OUT channel, with a Content-Length in bytes.
pub(crate) fn begin_out_request(config: &ClientConfig, length: u32, begun: &mut Begun)
    ensures { begun.new ≡ out_request config.now length }
{
    // Its range bounds the length of the text.
    let _port = config.port;
    let mut room = [0; REQUEST_ROOM];
    match write_out_request(config, length, &mut room) {
        Ok(len) => begun.begin(&room[..len]),
        Err(_) => unreachable!(),
    }
}
