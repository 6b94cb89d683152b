// The command `write`: a member file from a readable list of its records.
use crate::usage::{bad_usage, shown};
use sitting::lists::file_of;
use std::{fs, io};

fn save(rt: &HostRuntime, path: &str, bytes: &[u8]) -> io::Result<()> {
    fs::write(rt, path, bytes)?;
    println!(rt; "{path}: {} bytes", bytes.len())
}

fn write_file_of(rt: &HostRuntime, list: &str, out: &str) -> anyhow::Result<()> {
    let text = shown(rt, list, fs::read_to_string(rt, list))?;
    let bytes = shown(rt, list, file_of(rt.alloc(), text.as_str()))?;
    shown(rt, out, save(rt, out, &bytes))
}

pub(crate) fn write_list(rt: &HostRuntime, words: &[&str]) -> anyhow::Result<()> {
    match words {
        [list, out] => write_file_of(rt, list, out),
        _ => bad_usage(rt, "write: LIST OUT is wanted"),
    }
}
