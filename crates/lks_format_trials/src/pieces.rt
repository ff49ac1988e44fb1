//! Pieces of scripts, and scripts of them.

use lks_script::{Script, read_script};
use std::alloc::Global;
use std::test::*;

pub const TITLE: &str = "lockss 1\n";

pub const RULES: &str =
    "rules inner 4 quorum 3 minority 1 outer 0 repairs 2 pace 0 refractory 0 overdue 100 unknown 100 debt 100 churn 0\n";

pub const AU: &str = "au 1 2\n";

pub const PEERS: &str =
    "peer 1 honest 01 01\npeer 2 corrupt 02 01\npeer 3 corrupt 03 01\npeer 4 corrupt 04 01\n";

/// The peers as they are printed.
pub const PRINTED_PEERS: &str = "\
peer 1 honest 0100000000000000000000000000000000000000000000000000000000000000 01
peer 2 corrupt 0200000000000000000000000000000000000000000000000000000000000000 01
peer 3 corrupt 0300000000000000000000000000000000000000000000000000000000000000 01
peer 4 corrupt 0400000000000000000000000000000000000000000000000000000000000000 01
";

pub const LISTS: &str = "refs 1 2 3 4\ncopy 1 1 41,42\n";

pub fn joined(alloc: Global, pieces: &[&str]) -> Result<Vec<u8>, Fail> {
    let mut bytes = Vec::new(alloc);
    for piece in pieces {
        bytes.extend_from_slice(piece.as_bytes())?;
    }
    Ok(bytes)
}

/// The script that the bytes say.
pub fn script_in(alloc: Global, bytes: &[u8]) -> Result<Script, Fail> {
    match read_script(alloc, bytes) {
        Ok(script) => Ok(script),
        Err(_) => Err("a bad line, or out of memory".into()),
    }
}
