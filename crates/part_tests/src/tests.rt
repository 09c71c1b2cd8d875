//! Notes that are read, and where others stop.

use crate::note::read_note;
use std::process::Abort;
use text_parts::{DueKind, ReadError, Stop};

fn reads<R: Abort>(rt: &R, bytes: &[u8], pages: u32) {
    match read_note(bytes) {
        Ok(read) => assert!(rt; read == pages),
        Err(_) => assert!(rt; false),
    }
}

fn stops<R: Abort>(rt: &R, bytes: &[u8], left: usize, kind: DueKind) {
    match read_note(bytes) {
        Ok(_) => assert!(rt; false),
        Err(error) => assert!(rt; error == ReadError::Stopped(Stop { left, kind })),
    }
}

#[test]
fn reads_a_note(rt: HostRuntime) {
    reads(&rt, b"note 1\npages 7\nend\n", 7);
    reads(&rt, b"note 1\npages 0\nend\n", 0);
    reads(&rt, b"note 1\npages 999\nend\n", 999);
}

#[test]
fn tells_where_a_note_stops(rt: HostRuntime) {
    stops(&rt, b"note 2\n", 2, DueKind::Header);
    stops(&rt, b"note 1\npages 1000\nend\n", 6, DueKind::Length);
    stops(&rt, b"note 1\npages 07\nend\n", 6, DueKind::Number);
    stops(&rt, b"note 1\npages 7\n", 0, DueKind::End);
    stops(&rt, b"note 1\npages 7\nend\n!", 1, DueKind::Rest);
}
