//! Trials of what a peer's rules stand on, a module for each crate: keys and hashes (`lks_hash`), draws (`lks_draw`),
//! whom a peer samples, admits and asks (`lks_choice`), a voter's part (`lks_voter`), tallies and polls (`lks_tally`,
//! `lks_poller`), versions of copies (`lks_versions`), and the hashing of votes as jobs, also on threads (`lks_work`,
//! `lks_farm`).
#![tactic(auto)]

#[cfg(test)]
mod choice;
#[cfg(test)]
mod draw;
#[cfg(test)]
mod farm;
#[cfg(test)]
mod hash;
#[cfg(test)]
mod poller;
#[cfg(test)]
mod same;
#[cfg(test)]
mod samples;
#[cfg(test)]
mod tally;
#[cfg(test)]
mod versions;
#[cfg(test)]
mod voter;
#[cfg(test)]
mod work;

/// The byte 1 and 31 zero bytes.
#[cfg(test)]
const SEED: &[u8; 32] =
    b"\x01\x00\x00\x00\x00\x00\x00\x00\x00\x00\x00\x00\x00\x00\x00\x00\x00\x00\x00\x00\x00\x00\x00\x00\x00\x00\x00\x00\x00\x00\x00\x00";
