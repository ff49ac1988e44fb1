//! Trials of peers that run, a module for each crate: a peer's part in polls of others (`lks_sessions`), what comes to
//! it (`lks_inbox`), a peer restored from its journal, and its work as jobs (`lks_peer`), whose journal it is and the
//! host that adopts it (`lks_host`), the checker of journals (`lks_evidence`), worlds that are driven by what they give
//! out (`lks_world`), by one thread and by several (`lks_race`); and the examples of crate pages.
#![tactic(auto)]

#[cfg(test)]
mod evidence;
#[cfg(test)]
mod examples;
#[cfg(test)]
mod host;
#[cfg(test)]
mod inbox;
#[cfg(test)]
mod peer;
#[cfg(test)]
mod race;
#[cfg(test)]
mod same;
#[cfg(test)]
mod sessions;
#[cfg(test)]
mod world;
