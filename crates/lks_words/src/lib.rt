//! Words of a script: what each says, how it is printed, and that what is printed reads back. And the words of the
//! command line.
//!
//! Its trials: `lks_format_trials`, `words`.
#![tactic(auto)]

mod command_line;
mod commands;
mod laws;
mod numbers;
mod own_steps;
mod printing;
mod stops;
mod words;

pub use commands::{Command, Play, parse};
pub use laws::{
    every_block_reads_back, every_copy_reads_back, every_forgery_reads_back,
    every_line_parts_again, every_list_reads_back, every_name_reads_back, every_number_reads_back,
    every_printed_value_is_a_word, every_proof_reads_back, every_seed_reads_back,
    every_value_read_fits,
};
pub use numbers::number;
pub use own_steps::{put_step, put_step_rest, step_key};
pub use printing::{
    put_answer, put_block, put_blocks, put_hash, put_hex, put_ids, put_kind, put_number, put_text,
};
pub use stops::Stop;
pub use words::{
    answer, block, blocks, bytes, count, hash, id, ids, index, kind, large, poll, proof, seed,
    small, split,
};
