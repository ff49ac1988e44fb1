//! What stands outside: streams, judges and bells.

mod bells;
mod judges;
mod streams;
