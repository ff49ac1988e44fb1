//! The most of whatever has a limit, and the rule of quorums.

ghost use Rattle.std.specs.Prelude.{◌≡◌};
ghost use Rattle.lks_base.specs.Quorums.{obeys_quorum_rule};

/// Blocks of an AU.
pub const MOST_BLOCKS: u16 = 512;

/// The last number that a block has.
pub const LAST_BLOCK: u16 = 511;

/// The last number that a peer or an AU has.
pub const LAST_NUMBER: u16 = 65_535;

/// Bytes of a block.
pub const MOST_BLOCK_BYTES: u16 = 16_384;

/// Bytes of a proof of effort.
pub const MOST_PROOF_BYTES: u8 = 64;

/// Peers that a message nominates.
pub const MOST_NOMINEES: u8 = 8;

/// Peers of a circle, and so votes of a quorum.
pub const MOST_CIRCLE: u16 = 16;

/// Blocks that a voter serves in one poll.
pub const MOST_REPAIRS: u16 = 512;

/// Bytes of a forged message.
pub const MOST_FORGED_BYTES: u32 = 40_000;

/// AUs of a plan.
pub const MOST_AUS: u8 = 4;

/// Peers of a plan.
pub const MOST_PEERS: u8 = 32;

/// Bytes of all copies of a plan together.
pub const MOST_COPY_BYTES: u32 = 134_217_728;

/// Events of a history.
pub const MOST_EVENTS: u16 = 4_096;

/// Ticks of one event, and of each rule that counts ticks.
pub const MOST_TICKS: u32 = 1_000_000;

/// The rule of quorums: twice the minority is less than the quorum, so that no votes are a landslide both ways.
pub fn obeys_quorum_rule(quorum: u16, minority: u16) -> bool
    ensures { result ≡ obeys_quorum_rule quorum minority }
{
    2 * u32::from(minority) < u32::from(quorum)
}
