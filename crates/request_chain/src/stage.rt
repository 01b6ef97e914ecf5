// How far the newest stream of a chain was read.
ghost use Rattle.std.specs.Prelude.{◌≡◌, ◌⊎◌, ◌↔◌, ◌<◌, ◌≤◌, List, ℕ, IsTrue, IsFalse, OnOk, IfErr};
ghost use Rattle.reply_reader.specs.Heads.{IsAtHead, IsHeadDue, HasNoFinalHead};
ghost use Rattle.link_source.specs.declared.exchanges.TheConstants.{MOST_RECEIVED};
ghost use Rattle.reply_reader.specs.Losses.{IsKnown};
ghost use Rattle.reply_reader.specs.declared.loss.Loss.TheVariants.{BadReply, NoMemory};
ghost use Rattle.request_chain.specs.declared.content.Content.{Content};
ghost use Rattle.request_chain.specs.Stages.{FitsHead, IsDueAt, IsHeardAt, IsNoHeadAt, IsUnheardAt, got_at};

use crate::content::Content;
use link_source::MOST_RECEIVED;
use reply_reader::{HeadReader, Loss};
use std::alloc::Global;

/// The next request is due, the first bytes of a reply over a connection that had another one before are, the heads of a
/// reply come, or its content.
#[derive(Debug, Drop)]
pub(crate) enum Stage {
    Asking,
    Unheard(HeadReader),
    Head(HeadReader),
    Content(Content),
}

// A head that doesn't come whole is lost so, if it is one so far.
pub(crate) fn check_head(alloc: Global, reader: &HeadReader) -> Result<(), Loss>
    ensures due { OnOk result ((front : List ℕ) → IsAtHead front reader.now → IsHeadDue front) }
    ensures lost { IfErr result (λ loss. (loss ≡ NoMemory)
        ⊎ ((loss ≡ BadReply) × ((front : List ℕ) → IsAtHead front reader.now
        → HasNoFinalHead front))) }
    ensures known { IfErr result IsKnown }
{
    match reader.is_due(alloc) {
        Ok(true) => Ok(()),
        Ok(false) => Err(Loss::BadReply),
        Err(_) => Err(Loss::NoMemory),
    }
}

impl Stage {
    pub fn is_asking(&self) -> bool
        ensures { IsTrue result ↔ (self.now ≡ Stage.Asking) }
    {
        matches!(self, Stage::Asking)
    }

    pub fn is_unheard(&self) -> bool
        ensures unheard { IsTrue result → IsUnheardAt self.now }
        ensures heard { IsFalse result → IsHeardAt self.now }
    {
        matches!(self, Stage::Unheard(_))
    }

    /// How many bytes came by the request.
    pub fn got(&self) -> u64
        ensures { result ≡ got_at self.now }
    {
        match self {
            Stage::Asking | Stage::Unheard(_) | Stage::Head(_) => 0,
            Stage::Content(content) => content.got,
        }
    }

    /// The most bytes that are asked of the link at once: of a head that is due no more than the longest one has.
    pub fn most_asked(&self) -> u32
        ensures some { 0 < result }
        ensures few { result ≤ MOST_RECEIVED }
        ensures head { FitsHead self.now result }
        ensures content { (content : Content) → self.now ≡ Stage.Content content
            → result ≡ MOST_RECEIVED }
    {
        match self {
            Stage::Unheard(reader) => reader.most_asked(),
            Stage::Head(reader) => reader.most_asked(),
            Stage::Asking | Stage::Content(_) => MOST_RECEIVED as u32,
        }
    }

    /// Whether a head that is read can still come. Asked where no more of the stream is read, for now or for good.
    pub fn check(&self, alloc: Global) -> Result<(), Loss>
        ensures due { OnOk result (IsDueAt self.now) }
        ensures lost { IfErr result (λ loss. (loss ≡ NoMemory)
            ⊎ ((loss ≡ BadReply) × IsNoHeadAt self.now)) }
        ensures known { IfErr result IsKnown }
    {
        match self {
            Stage::Unheard(reader) => check_head(alloc, reader),
            Stage::Head(reader) => check_head(alloc, reader),
            Stage::Asking | Stage::Content(_) => Ok(()),
        }
    }
}
