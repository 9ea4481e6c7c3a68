//! Windows: `sender` begins one, with `may`, `sent` and `acked`; `receiver` and `shut` begin one,
//! with `admit`, `release`, `held`, `due`, `told` and `pass`.

use crate::numbers::{long_of, number_of, short_of};
use crate::spelling::tell;
use rh_window::{RecvWindow, SendWindow};
use std::alloc::AllocError;

/// The window of a sender, and that of a receiver.
#[derive(Drop)]
pub struct Windows {
    sender: SendWindow,
    receiver: RecvWindow,
}

/// A window of this size that is told once a PDU came before that; the answers are appended.
fn told_late(size: u32, len: u16, out: &mut String) -> Result<RecvWindow, AllocError> {
    let size = if 8_192 <= size && size <= 262_144 {
        size
    } else {
        8_192
    };
    let mut window = RecvWindow::shut(size);
    tell(window.admit(len), out)?;
    out.push_str(" ")?;
    tell(window.due(), out)?;
    window.tell();
    out.push_str(" ")?;
    tell(window.due(), out)?;
    Ok(window)
}

fn tell_due(window: &mut RecvWindow) {
    if let Some(ack) = window.due() {
        window.told(&ack);
    }
}

fn release(window: &mut RecvWindow, len: u16) -> bool {
    let held = window.held() >= u32::from(len);
    if held {
        window.release(len);
    }
    held
}

/// So many times: tells what is due; then a PDU of this length comes and is passed on.
fn pass(window: &mut RecvWindow, text: &[u8]) -> bool {
    let (times, rest) = number_of(text);
    let len = short_of(rest);
    for _ in 0..times.min(100_000) {
        tell_due(window);
        if window.admit(len).is_err() || !release(window, len) {
            return false;
        }
    }
    true
}

fn send(window: &mut SendWindow, len: u16) -> bool {
    let may = window.may_send(len);
    if may {
        window.sent(len);
    }
    may
}

/// Appends the answer to an acknowledgement, and whether one that was refused changed the window.
fn acked(window: &mut SendWindow, text: &[u8], out: &mut String) -> Result<(), AllocError> {
    let (received, rest) = long_of(text);
    let (available, _) = long_of(rest);
    let before = *window;
    let answer = window.acked(received, available);
    tell(answer, out)?;
    if answer.is_err() && *window != before {
        out.push_str(" and changed")?;
    }
    Ok(())
}

fn on_sender(
    window: &mut SendWindow,
    call: &str,
    text: &[u8],
    out: &mut String,
) -> Result<(), AllocError> {
    match call {
        "sender" => {
            let (edge, _) = long_of(text);
            *window = SendWindow::new(edge);
            Ok(())
        }
        "may" => tell(window.may_send(short_of(text)), out),
        "sent" => tell(send(window, short_of(text)), out),
        "acked" => acked(window, text, out),
        _ => out.push_str("?"),
    }
}

impl Windows {
    /// Windows of the least size.
    pub fn new() -> Windows {
        Windows {
            sender: SendWindow::new(8_192),
            receiver: RecvWindow::new(8_192),
        }
    }

    fn begin(&mut self, text: &[u8]) {
        let (size, _) = long_of(text);
        if 8_192 <= size && size <= 262_144 {
            self.receiver = RecvWindow::new(size);
        }
    }

    fn shut(&mut self, text: &[u8], out: &mut String) -> Result<(), AllocError> {
        let (size, rest) = long_of(text);
        self.receiver = told_late(size, short_of(rest), out)?;
        Ok(())
    }

    /// Answers a call.
    pub fn call(&mut self, call: &str, text: &[u8], out: &mut String) -> Result<(), AllocError> {
        match call {
            "receiver" => {
                self.begin(text);
                Ok(())
            }
            "shut" => self.shut(text, out),
            "admit" => tell(self.receiver.admit(short_of(text)), out),
            "release" => tell(release(&mut self.receiver, short_of(text)), out),
            "held" => tell(self.receiver.held(), out),
            "due" => tell(self.receiver.due(), out),
            "told" => {
                tell_due(&mut self.receiver);
                Ok(())
            }
            "pass" => tell(pass(&mut self.receiver, text), out),
            _ => on_sender(&mut self.sender, call, text, out),
        }
    }
}
