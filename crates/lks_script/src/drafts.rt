//! How far a script is read, and what a line makes of it.

ghost use Rattle.std.specs.Prelude.{◌≡◌, map};
ghost use Rattle.lks_words.specs.Words.{Gives};
ghost use Rattle.lks_script.specs.declared.drafts.Draft.TheVariants as drafts;
ghost use Rattle.lks_script.specs.declared.drafts.PlanPart.TheVariants as parts;
ghost use Rattle.lks_script.specs.Grammar.{title_line, rules_line, turns_line, au_line, peer_line, ruled_line};
ghost use Rattle.lks_script.specs.Grammar.{in_peers, step_line, later_line, declares_peer, planned_line, stepped_line};
ghost use Rattle.lks_script.specs.Grammar.{line_in, script_of_draft};

use crate::step_lines::add_step;
use crate::steps::{Script, Step};
use lks_base::{AuPlan, MOST_EVENTS, Plan, Rules, Seq};
use lks_lines::{
    ListKind, PlanDraft, add_au, add_copy, add_damage, add_hash, add_list, add_peer, begin, rules,
};
use lks_words::{Stop, number};
use std::alloc::Global;

/// What the lines of a plan have come to.
#[derive(Clone, Copy)]
pub enum PlanPart {
    /// Peers are declared.
    Peers,
    /// Lists and copies are given.
    Lists,
}

/// A script as far as it is read.
#[derive(Drop)]
pub enum Draft {
    /// No line yet.
    Blank,
    /// Its first line.
    Titled,
    /// Its rules, its turns if it says so, and AUs.
    Ruled {
        rules: Rules,
        turns: Option<u32>,
        aus: Seq<AuPlan>,
    },
    /// A plan with a peer or more.
    Planned {
        part: PlanPart,
        plan: PlanDraft,
    },
    /// A plan, and steps on it.
    Stepped {
        plan: Plan,
        steps: Seq<Step>,
    },
}

#[tactic(auto, unfolding(crate::specs::Grammar::title_line))]
fn read_title(words: &[&[u8]]) -> Result<Draft, Stop>
    ensures { Gives result (title_line (map (λ w. w.now) words.now)) }
{
    let [key, version] = words else {
        return Err(Stop::Bad);
    };
    if *key == b"lockss".as_slice() && *version == b"1".as_slice() {
        Ok(Draft::Titled)
    } else {
        Err(Stop::Bad)
    }
}

#[tactic(auto, unfolding(crate::specs::Grammar::rules_line))]
fn read_rules(alloc: Global, words: &[&[u8]]) -> Result<Draft, Stop>
    ensures { Gives result (rules_line (map (λ w. w.now) words.now)) }
{
    let [key, more @ ..] = words else {
        return Err(Stop::Bad);
    };
    if *key != b"rules".as_slice() {
        return Err(Stop::Bad);
    }
    let rules = rules(more)?;
    Ok(Draft::Ruled {
        rules,
        turns: None,
        aus: Seq::from_vec(Vec::new(alloc)),
    })
}

#[tactic(auto, unfolding(crate::specs::Grammar::turns_line))]
fn read_turns(
    alloc: Global,
    rules: Rules,
    turns: Option<u32>,
    aus: Seq<AuPlan>,
    more: &[&[u8]],
) -> Result<Draft, Stop>
    ensures { Gives result (turns_line rules turns aus (map (λ w. w.now) more.now)) }
{
    match (turns, aus.as_slice(), more) {
        (None, [], [word]) => {
            let turns = number(u64::from(MOST_EVENTS), word).ok_or(Stop::Bad)?;
            Ok(Draft::Ruled {
                rules,
                turns: Some(turns as u32),
                aus: Seq::from_vec(Vec::new(alloc)),
            })
        }
        _ => Err(Stop::Bad),
    }
}

#[tactic(auto, unfolding(crate::specs::Grammar::au_line))]
fn read_au(
    rules: Rules,
    turns: Option<u32>,
    aus: Seq<AuPlan>,
    more: &[&[u8]],
) -> Result<Draft, Stop>
    ensures { Gives result (au_line rules turns aus (map (λ w. w.now) more.now)) }
{
    let aus = add_au(aus, more)?;
    Ok(Draft::Ruled { rules, turns, aus })
}

#[tactic(auto, unfolding(crate::specs::Grammar::peer_line))]
fn read_peer(alloc: Global, plan: PlanDraft, more: &[&[u8]]) -> Result<Draft, Stop>
    ensures { Gives result (peer_line plan (map (λ w. w.now) more.now)) }
{
    let plan = add_peer(alloc, plan, more)?;
    let part = PlanPart::Peers;
    Ok(Draft::Planned { part, plan })
}

#[tactic(auto, unfolding(crate::specs::Grammar::ruled_line))]
fn read_ruled(
    alloc: Global,
    rules: Rules,
    turns: Option<u32>,
    aus: Seq<AuPlan>,
    words: &[&[u8]],
) -> Result<Draft, Stop>
    ensures { Gives result (ruled_line rules turns aus (map (λ w. w.now) words.now)) }
{
    let [key, more @ ..] = words else {
        return Err(Stop::Bad);
    };
    if *key == b"turns".as_slice() {
        read_turns(alloc, rules, turns, aus, more)
    } else if *key == b"au".as_slice() {
        read_au(rules, turns, aus, more)
    } else if *key == b"peer".as_slice() {
        let plan = begin(alloc, rules, turns, aus);
        read_peer(alloc, plan, more)
    } else {
        Err(Stop::Bad)
    }
}

impl PlanPart {
    fn peers(&self) -> bool
        ensures { result ≡ in_peers self.now }
    {
        matches!(self, PlanPart::Peers)
    }

    #[tactic(auto, unfolding(crate::specs::Grammar::declares_peer))]
    fn declares_peer(&self, key: &[u8]) -> bool
        ensures { result ≡ declares_peer self.now key.now }
    {
        self.peers() && key == b"peer".as_slice()
    }
}

#[tactic(auto, unfolding(crate::specs::Grammar::step_line))]
fn read_next(
    alloc: Global,
    plan: Plan,
    steps: Seq<Step>,
    key: &[u8],
    more: &[&[u8]],
) -> Result<Draft, Stop>
    ensures { Gives result (step_line plan steps key.now (map (λ w. w.now) more.now)) }
{
    let steps = add_step(alloc, &plan, steps, key, more)?;
    Ok(Draft::Stepped { plan, steps })
}

fn listed(plan: PlanDraft) -> Draft
    ensures { result ≡ drafts.Planned parts.Lists plan }
{
    let part = PlanPart::Lists;
    Draft::Planned { part, plan }
}

#[tactic(auto, unfolding(crate::specs::Grammar::later_line))]
fn read_later(alloc: Global, plan: PlanDraft, key: &[u8], more: &[&[u8]]) -> Result<Draft, Stop>
    ensures { Gives result (later_line plan key.now (map (λ w. w.now) more.now)) }
{
    if key == b"refs".as_slice() {
        Ok(listed(add_list(alloc, ListKind::Refs, plan, more)?))
    } else if key == b"friends".as_slice() {
        Ok(listed(add_list(alloc, ListKind::Friends, plan, more)?))
    } else if key == b"hash".as_slice() {
        Ok(listed(add_hash(alloc, plan, more)?))
    } else if key == b"copy".as_slice() {
        Ok(listed(add_copy(alloc, plan, more)?))
    } else if key == b"damage".as_slice() {
        Ok(listed(add_damage(alloc, plan, more)?))
    } else {
        let PlanDraft { plan, .. } = plan;
        read_next(alloc, plan, Seq::from_vec(Vec::new(alloc)), key, more)
    }
}

#[tactic(auto, unfolding(crate::specs::Grammar::planned_line))]
fn read_planned(
    alloc: Global,
    part: PlanPart,
    plan: PlanDraft,
    words: &[&[u8]],
) -> Result<Draft, Stop>
    ensures { Gives result (planned_line part plan (map (λ w. w.now) words.now)) }
{
    let [key, more @ ..] = words else {
        return Err(Stop::Bad);
    };
    if part.declares_peer(key) {
        read_peer(alloc, plan, more)
    } else {
        read_later(alloc, plan, key, more)
    }
}

#[tactic(auto, unfolding(crate::specs::Grammar::stepped_line))]
fn read_stepped(alloc: Global, plan: Plan, steps: Seq<Step>, words: &[&[u8]]) -> Result<Draft, Stop>
    ensures { Gives result (stepped_line plan steps (map (λ w. w.now) words.now)) }
{
    let [key, more @ ..] = words else {
        return Err(Stop::Bad);
    };
    read_next(alloc, plan, steps, key, more)
}

/// The script with one line more.
#[tactic(auto, unfolding(crate::specs::Grammar::line_in))]
pub fn read_line(alloc: Global, draft: Draft, words: &[&[u8]]) -> Result<Draft, Stop>
    ensures { Gives result (line_in draft (map (λ w. w.now) words.now)) }
{
    match draft {
        Draft::Blank => read_title(words),
        Draft::Titled => read_rules(alloc, words),
        Draft::Ruled { rules, turns, aus } => read_ruled(alloc, rules, turns, aus, words),
        Draft::Planned { part, plan } => read_planned(alloc, part, plan, words),
        Draft::Stepped { plan, steps } => read_stepped(alloc, plan, steps, words),
    }
}

/// The script, where its end may come here.
#[tactic(auto, unfolding(crate::specs::Grammar::script_of_draft))]
pub fn into_script(alloc: Global, draft: Draft) -> Option<Script>
    ensures { result ≡ script_of_draft draft }
{
    match draft {
        Draft::Blank => None,
        Draft::Titled => None,
        Draft::Ruled { .. } => None,
        Draft::Planned { plan, .. } => {
            let PlanDraft { plan, .. } = plan;
            let steps = Seq::from_vec(Vec::new(alloc));
            Some(Script { plan, steps })
        }
        Draft::Stepped { plan, steps } => Some(Script { plan, steps }),
    }
}
