//! A poll's opening, as code borrows it from a record or a state.

use lks_base::{AuId, HashKind, Ids, Limits};
use std::marker::Model;

/// What a poll keeps from its opening.
#[derive(Drop)]
pub struct Opening<'a> {
    pub au: AuId,
    pub nonce: &'a [u8; 32],
    pub inner: &'a Ids,
    pub limits: Option<Limits>,
    pub kind: HashKind,
}

impl<'a> Model for Opening<'a> {
    ghost use Rattle.lks_law.specs.Journal.{Opening as Opened};

    ghost Value = { Opened };

    ghost view = { λ o.
        record { au = o.au; nonce = o.nonce.now; inner = o.inner.now; limits = o.limits; kind = o.kind } };
}
