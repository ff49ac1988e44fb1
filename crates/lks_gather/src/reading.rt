//! Plans and journals from bytes.

ghost use Rattle.std.specs.Prelude.{◌≡◌, ◌==◌, ◌≤◌, ◌<◌, ◌^◌, ◌+◌, [], length, map, filter, take, drop, true, None};
ghost use Rattle.std.specs.Prelude.{IfOk, All};
ghost use Rattle.lks_base.specs.Checking.{plan_fault};
ghost use Rattle.lks_evidence.specs.Rules.{has_shelf};
ghost use Rattle.lks_evidence.specs.Sizes.{most_records, IsSmall};
ghost use Rattle.lks_record.specs.Spelling.{IsInLimits};
ghost use Rattle.lks_gather.specs.Sets.{begins_journal, is_journal_at, script_from, journals_from, may_keep};
ghost use Rattle.lks_gather.specs.Sets.{books_with, journal_line, with_book, books_end, books_in, set_of, book_on};
ghost use Rattle.lks_gather.specs.Sets.{said_by, HaveNewPeers, Tells};
ghost use Rattle.lks_words.specs.Words.{Shows, parts};

use crate::gathered::Gathered;
use crate::lists::read_hex_list;
use lks_base::{PeerId, Plan, Record, has_honest};
use lks_evidence::Shelf;
use lks_script::{Script, ScriptFault, bad_line, first_line, is_idle, read_script};
use lks_words::{Stop, id, split};
use std::alloc::Global;

/// Whether a line begins as one that gives a journal.
#[tactic(auto, unfolding(crate::specs::Sets::begins_journal))]
fn begins_journal(line: &[u8]) -> bool
    ensures { result ≡ begins_journal line.now }
{
    line.starts_with(b"journal ")
}

#[tactic(auto, unfolding(crate::specs::Sets::is_journal_at))]
fn is_journal_at(starts: bool, bytes: &[u8]) -> bool
    ensures { result ≡ is_journal_at starts bytes.now }
{
    starts && begins_journal(bytes)
}

/// Where the first line begins that gives a journal, or where the bytes end.
fn journals_at(bytes: &[u8]) -> usize
    ensures within { result ≤ length bytes.now }
    ensures before { take result bytes.now ≡ script_from true bytes.now }
    ensures behind { drop result bytes.now ≡ journals_from true bytes.now }
{
    let mut starts = true;
    for (at, byte) in bytes.iter().enumerate() {
        let (_, rest) = bytes.split_at(at);
        if is_journal_at(starts, rest) {
            return at;
        }
        starts = *byte == b'\n';
    }
    bytes.len()
}

fn count_feeds(bytes: &[u8]) -> usize
    ensures few { result ≤ length bytes.now }
    ensures value { result ≡ length (filter (λ b. b == 10) bytes.now) }
{
    bytes.iter().filter(|b| **b == b'\n').count()
}

/// Counts lines, and what stands behind the last line feed.
#[tactic(auto, using(crate::proofs::Cuts::lines_counted))]
fn count_lines(bytes: &[u8]) -> u64
    ensures value { result ≡ length (parts 10 bytes.now) }
    ensures few { result ≤ length bytes.now + 1 }
{
    count_feeds(bytes) as u64 + 1
}

fn has_shelf(set: &[Shelf], peer: PeerId) -> bool
    ensures { result ≡ has_shelf set.now peer }
{
    set.iter().any(|s| s.peer == peer)
}

#[tactic(auto, using(crate::proofs::Journals::has_book_on), unfolding(crate::specs::Sets::may_keep))]
fn may_keep(plan: &Plan, set: &[Shelf], peer: PeerId) -> bool
    ensures { result ≡ may_keep plan.now (map book_on set.now) peer }
{
    has_honest(plan.peers.as_slice(), peer) && !has_shelf(set, peer)
}

#[tactic(auto, unfolding(crate::specs::Sets::books_with))]
fn add_shelf(
    plan: &Plan,
    mut set: Vec<Shelf>,
    peer: PeerId,
    list: Vec<Record>,
) -> Result<Vec<Shelf>, Stop>
    ensures { Shows (λ v. map book_on v.items) result (books_with plan.now (map book_on set.items) peer list.items) }
{
    if !may_keep(plan, &set, peer) {
        return Err(Stop::Bad);
    }
    set.push(Shelf { peer, list })?;
    Ok(set)
}

/// A line that gives a journal.
#[tactic(auto, unfolding(crate::specs::Sets::journal_line))]
fn read_journal(
    alloc: Global,
    plan: &Plan,
    set: Vec<Shelf>,
    words: &[&[u8]],
) -> Result<Vec<Shelf>, Stop>
    ensures { Shows (λ v. map book_on v.items) result
        (journal_line plan.now (map book_on set.items) (map (λ w. w.now) words.now)) }
{
    let [key, peer, hex] = words else {
        return Err(Stop::Bad);
    };
    if *key != b"journal".as_slice() {
        return Err(Stop::Bad);
    }
    let peer = id(peer)?;
    let list = read_hex_list(alloc, hex)?;
    add_shelf(plan, set, peer, list)
}

#[tactic(auto, unfolding(crate::specs::Sets::with_book))]
fn extend(alloc: Global, plan: &Plan, set: Vec<Shelf>, line: &[u8]) -> Result<Vec<Shelf>, Stop>
    ensures { Shows (λ v. map book_on v.items) result (with_book plan.now (map book_on set.items) line.now) }
{
    if is_idle(line) {
        return Ok(set);
    }
    let words = split(alloc, line, b' ')?;
    read_journal(alloc, plan, set, &words)
}

#[tactic(auto, unfolding(crate::specs::Sets::books_end))]
fn finish(line: u64, set: Vec<Shelf>, last: &[u8]) -> Result<Vec<Shelf>, ScriptFault>
    ensures { Tells (λ v. map book_on v.items) result (books_end line (map book_on set.items) last.now) }
{
    if last.len() != 0 {
        return Err(bad_line(line));
    }
    Ok(set)
}

/// The journals in the lines from the `first` on.
fn read_journals(
    alloc: Global,
    plan: &Plan,
    first: u64,
    bytes: &[u8],
) -> Result<Vec<Shelf>, ScriptFault>
    requires { first + length bytes.now < 2 ^ 64 }
    ensures { Tells (λ v. map book_on v.items) result (books_in first plan.now [] (parts 10 bytes.now)) }
{
    let mut set = Vec::new(alloc);
    let mut line = first;
    let mut rest = bytes;
    'lines: while let Some((row, more)) = first_line(rest) {
        set = match extend(alloc, plan, set, row) {
            Ok(longer) => longer,
            Err(Stop::Bad) => return Err(bad_line(line)),
            Err(Stop::Memory) => return Err(ScriptFault::Memory),
        };
        line += 1;
        rest = more;
    }
    finish(line, set, rest)
}

/// The script and the lines of journals behind it.
fn read_parts(alloc: Global, bytes: &[u8]) -> Result<Gathered, ScriptFault>
    ensures { Tells said_by result (set_of bytes.now) }
{
    let (script, journals) = bytes.split_at(journals_at(bytes));
    let plan = match read_script(alloc, script) {
        Ok(Script { plan, .. }) => plan,
        Err(fault) => return Err(fault),
    };
    match read_journals(alloc, &plan, count_lines(script), journals) {
        Ok(set) => Ok(Gathered { plan, set }),
        Err(fault) => Err(fault),
    }
}

/// The plan and the journals that the bytes say, line by line: a script, whose steps mean nothing, up to the first line
/// that begins with `journal `, and from there on a line `journal P HEX` for each journal, with empty lines and
/// comments among them. `P` is an honest peer of the plan without a journal before, and `HEX` the frames of its batches
/// and a closed gate `00`, in hex of either case. Any other line is bad, and the first one is told by its number,
/// counted from 1. What is read can be examined: the plan breaks no rule, and of bytes that are no more than a journal
/// may have records the set is small.
#[tactic(auto, using(crate::proofs::Kept::read_is_good, crate::proofs::Kept::read_is_small, crate::proofs::Kept::read_is_within, crate::proofs::Kept::read_is_new))]
pub fn read_set(alloc: Global, bytes: &[u8]) -> Result<Gathered, ScriptFault>
    ensures exact { Tells said_by result (set_of bytes.now) }
    ensures good { IfOk result (λ g. plan_fault g.plan ≡ None) }
    ensures small { length bytes.now ≤ most_records → IfOk result (λ g. IsSmall g.set.items) }
    ensures within { IfOk result (λ g. All (λ s. All IsInLimits s.list.items) g.set.items) }
    ensures peers { IfOk result (λ g. HaveNewPeers g.plan g.set.items) }
{
    read_parts(alloc, bytes)
}
