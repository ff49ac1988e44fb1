//! One poll's requests, and who is next after each.

use crate::same::same;
use lks_base::OutOfMemory;
use lks_choice::Suppliers;
use std::process::Abort;

const AGAINST: &[u16] = &[7, 4, 7, 9];

fn note(suppliers: &mut Suppliers, voter: u16) -> Result<(), OutOfMemory> {
    if suppliers.unanswered().is_none() {
        suppliers.asked(5, voter)?;
    }
    Ok(())
}

/// Asks a voter for block 5, who doesn't serve, and then another is next.
fn ask(
    rt: &impl Abort,
    suppliers: &mut Suppliers,
    voter: u16,
    after: Option<u16>,
) -> Result<(), OutOfMemory> {
    same(
        rt,
        &suppliers.next(5, AGAINST),
        &Some(voter),
        &"suppliers.next",
    );
    note(suppliers, voter)?;
    same(
        rt,
        &suppliers.unanswered(),
        &Some((5, voter)),
        &"suppliers.unanswered",
    );
    same(rt, &suppliers.next(5, AGAINST), &after, &"suppliers.next");
    suppliers.answered();
    same(rt, &suppliers.unanswered(), &None, &"suppliers.unanswered");
    Ok(())
}

/// Who is asked, and who is next then.
const ROUNDS: [(u16, Option<u16>); 3] = [(7, Some(4)), (4, Some(9)), (9, None)];

#[test]
fn one_at_a_time(rt: HostRuntime) -> Result<(), OutOfMemory> {
    let mut suppliers = Suppliers::new(rt.alloc());
    same(&rt, &suppliers.unanswered(), &None, &"suppliers.unanswered");
    for (voter, after) in ROUNDS.iter() {
        ask(&rt, &mut suppliers, *voter, *after)?;
    }
    // Another block begins anew.
    same(
        &rt,
        &suppliers.next(6, AGAINST),
        &Some(7),
        &"suppliers.next",
    );
    same(&rt, &suppliers.next(6, &[]), &None, &"suppliers.next");
    Ok(())
}
