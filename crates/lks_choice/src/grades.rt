//! The grade of a peer.

ghost use Rattle.std.specs.Prelude.{◌≡◌, ◌<◌, ◌↔◌, false};
ghost use Rattle.lks_choice.specs.Grading.{grade_from};

/// What a peer's votes and ours come to.
#[derive(Clone, Copy, Debug, PartialEq, Eq)]
pub enum Grade {
    /// No votes either way, and no friend.
    Unknown,
    /// We gave it more votes than it gave us.
    Debt,
    /// As many each way, or none and a friend.
    Even,
    /// It gave us more votes than we gave it.
    Credit,
}

/// The grade of a peer from which we received so many votes, and to which we gave so many.
pub fn grade_of(received: u32, given: u32, friend: bool) -> Grade
    ensures grade { result ≡ grade_from received given friend }
    ensures debt { (result ≡ Grade.Debt) ↔ (received < given) }
    ensures credit { (result ≡ Grade.Credit) ↔ (given < received) }
    ensures unknown { (result ≡ Grade.Unknown) ↔ ((received ≡ 0) × (given ≡ 0) × (friend ≡ false)) }
{
    if given > received {
        Grade::Debt
    } else if received > given {
        Grade::Credit
    } else if given == 0 && !friend {
        Grade::Unknown
    } else {
        Grade::Even
    }
}
