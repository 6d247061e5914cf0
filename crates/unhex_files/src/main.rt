//! What is found of each hex file that an argument names.
#![tactic(auto)]

use std::env::{Env, FillError};
use std::fs::File;
use std::rt::Files;
use std::str;

/// The file at a path; none where it can't be opened.
fn opened<R: Files>(rt: &R, path: &[u8]) -> Option<R::File> {
    let name = str::from_utf8(path).ok()?;
    File::open(rt, name).ok()
}

/// Writes a file's name, and what is found of it.
fn say_argument(rt: &(impl Files + Print), path: &[u8]) {
    rt.write_all(path).ok();
    rt.write_all(b"\t").ok();
    match opened(rt, path) {
        Some(mut file) => unhex_text::say_file(&mut file, rt),
        None => {
            println!(rt; "unreadable").ok();
        }
    }
}

fn main(rt: HostRuntime) {
    // The bytes of each argument, which may be no text, and are printed as they are: `env::args` hands out text alone.
    let mut path = [0u8; 4096];
    for i in 1..usize::MAX {
        match rt.arg(i, &mut path) {
            Ok(length) => say_argument(&rt, &path[..length]),
            Err(FillError::TooLong) => say_argument(&rt, b""),
            Err(FillError::NotPresent) => break,
        }
    }
}
