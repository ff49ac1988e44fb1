//! Trials of the crates that turn bytes to values and values to bytes, a module for each: streams, judges and bells
//! (`lks_outside`), fields, messages and records (`lks_field`, `lks_message`, `lks_record`), disks, stores and journals
//! (`lks_disk`, `lks_store`, `lks_journal`), words and commands (`lks_words`), scripts read (`lks_script`) and printed
//! (`lks_print`), journals as text (`lks_gather`), and reports (`lks_report`).
#![tactic(auto)]

#[cfg(test)]
mod disk;
#[cfg(test)]
mod field;
#[cfg(test)]
mod gather;
#[cfg(test)]
mod journal;
#[cfg(test)]
mod message;
#[cfg(test)]
mod outside;
#[cfg(test)]
mod pieces;
#[cfg(test)]
mod print;
#[cfg(test)]
mod record;
#[cfg(test)]
mod report;
#[cfg(test)]
mod same;
#[cfg(test)]
mod script;
#[cfg(test)]
mod spelled;
#[cfg(test)]
mod store;
#[cfg(test)]
mod words;
