//! Whether a poller is let take part.

ghost use Rattle.std.specs.Prelude.{◌≡◌, ◌≤◌, true, false, IfSome, if◌then◌else◌};
ghost use Rattle.lks_draw.specs.Words.{draw_after};
ghost use Rattle.lks_choice.specs.Grading as grading;
ghost use Rattle.lks_choice.specs.Grading.{is_admitted, is_drawn, is_low, is_refractory};

use crate::grades::Grade;
use lks_base::Rules;
use lks_draw::Draws;

/// Whether a peer of this grade is admitted. Even and credit always are. Unknown and debt are not while less than
/// `refractory` ticks have gone by since the last such one was, at tick `last_low`; else they are in `unknown_pct` or
/// `debt_pct` of 100 cases, by one word of `draws`.
#[tactic(auto, unfolding(crate::specs::Grading::is_admitted, crate::specs::Grading::is_drawn))]
pub fn admits(g: Grade, rules: &Rules, last_low: Option<u32>, tick: u32, draws: &mut Draws) -> bool
    requires { IfSome last_low (λ last. last ≤ tick) }
    ensures admitted { result ≡ is_admitted g rules.now last_low tick draws.old }
    ensures in_good_standing { is_low g ≡ false → result ≡ true }
    ensures refractory { is_low g ≡ true → is_refractory rules.now.refractory last_low tick ≡ true → result ≡ false }
    ensures draws { draws.new ≡ (if is_drawn g rules.now last_low tick then draw_after draws.old 1 else draws.old) }
{
    if !is_drawn(g, rules, last_low, tick) {
        return !is_low(g);
    }
    draws.next(100) < u32::from(percentage(g, rules))
}

// Whether chance decides.
#[tactic(auto, unfolding(crate::specs::Grading::is_drawn))]
fn is_drawn(g: Grade, rules: &Rules, last_low: Option<u32>, tick: u32) -> bool
    requires { IfSome last_low (λ last. last ≤ tick) }
    ensures { result ≡ grading.is_drawn g rules.now last_low tick }
{
    is_low(g) && !is_refractory(rules.refractory, last_low, tick)
}

/// Whether a peer of this grade is drawn for, and let in once in a while: one that is unknown or in debt.
pub fn is_low(g: Grade) -> bool
    ensures { result ≡ grading.is_low g }
{
    matches!(g, Grade::Unknown | Grade::Debt)
}

fn is_refractory(refractory: u32, last_low: Option<u32>, tick: u32) -> bool
    requires { IfSome last_low (λ last. last ≤ tick) }
    ensures { result ≡ grading.is_refractory refractory last_low tick }
{
    match last_low {
        Some(last) => tick - last < refractory,
        None => false,
    }
}

fn percentage(g: Grade, rules: &Rules) -> u8
    ensures { result ≡ grading.percentage g rules.now }
{
    match g {
        Grade::Unknown => rules.unknown_pct,
        Grade::Debt => rules.debt_pct,
        Grade::Even | Grade::Credit => 100,
    }
}
