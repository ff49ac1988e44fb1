//! The program `lks_node`: it runs one LOCKSS peer over standard input and output, with its journal in a file.
#![tactic(auto)]

mod answering;
mod ends;
mod frames;
mod laws;
mod nodes;
mod opening;
mod orders;
mod replies;
mod runs;
mod statuses;
#[cfg(test)]
mod tests;
mod words;

pub use laws::{every_node_goes_on, every_start_is_where_it_stopped};
use lks_outside::{FirstByteJudge, StdSink, StdSource};
use lks_store::FileOpener;
pub use runs::node;
pub use statuses::NodeStatus;
use std::env;
use std::io::ErrorKind;
use std::process::ExitCode;

/// The words behind the program's name. One that isn't UTF-8 is neither a number nor a path.
fn words_of<R: env::Env + AllocGlobal>(rt: &R) -> Result<Vec<String>, NodeStatus> {
    let mut words = match env::args(rt) {
        Ok(words) => words,
        Err(error) => {
            return Err(match error.kind() {
                ErrorKind::OutOfMemory => NodeStatus::NoMemory,
                _ => NodeStatus::Usage,
            });
        }
    };
    let _name = words.next();
    words.collect(rt.alloc()).map_err(|_| NodeStatus::NoMemory)
}

fn main(rt: HostRuntime) -> ExitCode {
    let mut source = StdSource::new(rt.stdin());
    let mut sink = StdSink::new(rt.stdout());
    let mut opener = FileOpener::new(&rt);
    let status = match (words_of(&rt), FirstByteJudge::new(rt.alloc())) {
        (Ok(words), Ok(mut judge)) => {
            let (status, _store) = node(
                rt.alloc(),
                &rt,
                &words,
                &mut source,
                &mut sink,
                &mut opener,
                &mut judge,
            );
            status
        }
        (Err(status), _) => status,
        (_, Err(_)) => NodeStatus::NoMemory,
    };
    ExitCode::from(status.code())
}
