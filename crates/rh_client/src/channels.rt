//! What a client keeps of its channels.

ghost use Rattle.std.specs.Prelude.{◌≡◌};
ghost use Rattle.std.specs.Str.{bytes_eq};
ghost use Rattle.rh_client.specs.Channels.{no_cookie};

use rh_keep::Meter;
use rh_rts::{Cookie, NO_COOKIE};
use rh_sig::ranges::LEAST_TIMEOUT;
use rh_window::SendWindow;

/// The greatest number of a channel: it has no successor.
pub const LAST_NUMBER: u32 = rh_line::LAST_NUMBER;
/// The timeout that stands for an in proxy's until it is told: the least one, in milliseconds
/// (profile).
pub const UNTOLD_TIMEOUT: u32 = LEAST_TIMEOUT;

/// How much was put of what a leg begins with.
#[derive(Clone, Copy)]
pub enum Opening {
    /// Nothing, since the leg is not up.
    NotUp,
    /// Nothing: the request goes next.
    Request,
    /// The request: the first packet goes next.
    First,
    /// Both, of a successor's OUT channel: OUT_R2/C1 goes next.
    Second,
    /// All of it.
    Put,
}

/// An IN channel, on which the client writes.
#[derive(Drop)]
pub struct InChannel {
    /// From 1; 0 stands where there is no such channel.
    pub number: u32,
    /// Zeros until its leg is up.
    pub cookie: Cookie,
    pub opening: Opening,
    pub meter: Meter,
    pub window: SendWindow,
    /// The receive window that its in proxy told, in bytes: 0 until then.
    pub told: u32,
    /// The connection timeout that its in proxy told, in milliseconds.
    pub timeout: u32,
    pub is_end_put: bool,
    pub is_ping_due: bool,
}

/// An OUT channel, from which the client reads. What came on it is in the client's line.
#[derive(Drop)]
pub struct OutChannel {
    /// From 1; 0 stands where there is no such channel.
    pub number: u32,
    /// Zeros until its leg is up.
    pub cookie: Cookie,
    pub opening: Opening,
    /// The connection timeout that its out proxy told, in milliseconds.
    pub timeout: Option<u32>,
}

/// What stands for a cookie that isn't known.
fn no_cookie() -> Cookie
    ensures { result ≡ no_cookie }
{
    NO_COOKIE
}

/// Whether two cookies are the same.
fn same_cookie(one: Cookie, other: Cookie) -> bool
    ensures { result ≡ bytes_eq one.0 other.0 }
{
    one.0.as_slice() == other.0.as_slice()
}

impl Opening {
    ghost use Rattle.rh_client.specs.Channels.{is_up, is_put, is_asked};

    /// Whether the leg is up.
    pub(crate) fn is_up(&self) -> bool
        ensures { result ≡ is_up self.now }
    {
        !matches!(self, Opening::NotUp)
    }

    /// Whether all that the leg begins with was put.
    pub(crate) fn is_put(&self) -> bool
        ensures { result ≡ is_put self.now }
    {
        matches!(self, Opening::Put)
    }

    /// Whether the first packet was put.
    pub(crate) fn is_asked(&self) -> bool
        ensures { result ≡ is_asked self.now }
    {
        matches!(self, Opening::Second | Opening::Put)
    }
}

impl InChannel {
    ghost use Rattle.std.specs.Prelude.{◌≡◌, IsTrue};
    ghost use Rattle.rh_keep.specs.Meters.{may_put};
    ghost use Rattle.rh_window.specs.Sending.{may_send};
    ghost use Rattle.rh_client.specs.Channels.{unopened_in, in_up, is_named, told_in, counted, sent};

    /// A channel whose leg is not up, with a lifetime in bytes.
    pub(crate) fn unopened(number: u32, lifetime: u32) -> InChannel
        ensures { result ≡ unopened_in number lifetime }
    {
        InChannel {
            number,
            cookie: no_cookie(),
            opening: Opening::NotUp,
            meter: Meter::new(lifetime, 0),
            window: SendWindow::new(0),
            told: 0,
            timeout: UNTOLD_TIMEOUT,
            is_end_put: false,
            is_ping_due: false,
        }
    }

    /// Its leg is up, and has this cookie.
    pub(crate) fn up(&mut self, cookie: Cookie)
        ensures { self.new ≡ in_up self.old cookie }
    {
        self.cookie = cookie;
        self.opening = Opening::Request;
    }

    /// Whether its leg is up and has this cookie.
    pub(crate) fn is_named(&self, cookie: Cookie) -> bool
        ensures { result ≡ is_named self.now cookie }
    {
        self.opening.is_up() && same_cookie(self.cookie, cookie)
    }

    /// Its in proxy told its window, in bytes, and its timeout, in milliseconds.
    pub(crate) fn tell(&mut self, window: u32, timeout: u32)
        ensures { self.new ≡ told_in self.old window timeout }
    {
        self.window = SendWindow::new(window);
        self.told = window;
        self.timeout = timeout;
    }

    /// Counts so many bytes in its lifetime, where they leave the reserve; else nothing changes.
    pub(crate) fn count(&mut self, len: u16) -> bool
        ensures lets { result ≡ may_put self.old.meter len }
        ensures new { self.new ≡ counted self.old len }
    {
        if !self.meter.may_put(len) {
            return false;
        }
        self.meter.put(len);
        true
    }

    /// Counts a PDU of so many bytes as put, in its window and its lifetime.
    pub(crate) fn send(&mut self, len: u16)
        requires window { IsTrue (may_send self.old.window len) }
        requires lifetime { IsTrue (may_put self.old.meter len) }
        ensures { self.new ≡ sent self.old len }
    {
        self.window.sent(len);
        self.meter.put(len);
    }
}

impl OutChannel {
    ghost use Rattle.std.specs.Prelude.{◌≡◌};
    ghost use Rattle.rh_client.specs.Channels.{unopened_out, out_up};

    /// A channel whose leg is not up.
    pub(crate) fn unopened(number: u32) -> OutChannel
        ensures { result ≡ unopened_out number }
    {
        OutChannel {
            number,
            cookie: no_cookie(),
            opening: Opening::NotUp,
            timeout: None,
        }
    }

    /// Its leg is up, and has this cookie.
    pub(crate) fn up(&mut self, cookie: Cookie)
        ensures { self.new ≡ out_up self.old cookie }
    {
        self.cookie = cookie;
        self.opening = Opening::Request;
    }
}
