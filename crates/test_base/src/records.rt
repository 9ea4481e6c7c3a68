//! Lines of recordings: `header`, `direct` and `roles`.

use crate::spelling::tell;
use rh_record::{LineRefused, RecordKind, read_line};
use std::alloc::{AllocError, Global};

fn read(alloc: Global, text: &[u8], kind: RecordKind, out: &mut String) -> Result<(), AllocError> {
    match read_line(alloc, text, kind) {
        Ok(line) => tell(line, out),
        Err(LineRefused::Grammar) => out.push_str("none"),
        Err(refused) => tell(refused, out),
    }
}

/// Answers a call.
pub fn call(alloc: Global, call: &str, bytes: &[u8], out: &mut String) -> Result<(), AllocError> {
    match call {
        "header" => read(alloc, bytes, RecordKind::Header, out),
        "direct" => read(alloc, bytes, RecordKind::Direct, out),
        "roles" => read(alloc, bytes, RecordKind::Roles, out),
        _ => out.push_str("?"),
    }
}
