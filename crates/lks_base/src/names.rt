//! Names and small values that every part speaks of.

ghost use Rattle.std.specs.Prelude.{◌≡◌, ◌↔◌, IsTrue};
ghost use Rattle.lks_base.specs.Kinds.{is_second, is_kind};

/// The number of a peer.
pub type PeerId = u16;

/// The number of an archival unit (AU), the unit of content that peers keep and audit.
pub type AuId = u16;

/// A poll: who called it, and its number among the polls of that peer.
#[derive(Clone, Copy, Debug, PartialEq, Eq)]
pub struct PollName {
    pub poller: PeerId,
    pub number: u32,
}

/// A hash function of FIPS 180-4 with results of 32 bytes: SHA-256 or SHA-512/256.
#[derive(Clone, Copy, Debug, PartialEq, Eq)]
pub enum HashKind {
    Sha256,
    Sha512_256,
}

impl HashKind {
    /// Whether this is SHA-512/256.
    pub fn second(&self) -> bool
        ensures { result ≡ is_second self.now }
    {
        matches!(self, HashKind::Sha512_256)
    }

    /// Whether this is the same as another.
    pub fn is_kind(&self, kind: HashKind) -> bool
        ensures { result ≡ is_kind self.now kind }
    {
        self.second() == kind.second()
    }
}

/// The numbers that decide a poll: its quorum, and the most votes that a landslide minority has.
#[derive(Clone, Copy, Debug, PartialEq, Eq)]
pub struct Limits {
    pub quorum: u16,
    pub minority: u16,
}

/// The numbers in force, which an operator can tune: what decides polls to come, and how many blocks a voter serves in
/// a session to come.
#[derive(Clone, Copy, Debug, PartialEq, Eq)]
pub struct Numbers {
    pub quorum: u16,
    pub minority: u16,
    pub repairs: u16,
}

/// How a poll ended.
#[derive(Clone, Copy, Debug, PartialEq, Eq)]
pub enum Outcome {
    /// Each block has a landslide for it.
    Agreed,
    /// Fewer inner votes than the quorum.
    Inquorate,
    /// No landslide at this block: an alarm.
    Split { block: u16 },
    /// A landslide against this block, and nobody left to ask for it: an alarm.
    NoSupplier { block: u16 },
}

/// What the judge of effort proofs said of a delivery.
#[derive(Clone, Copy, Debug, PartialEq, Eq)]
pub enum Judged {
    NotAsked,
    Accepted,
    Refused,
}
