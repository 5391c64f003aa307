//! An outbox: where a worker puts its verdicts.

ghost use Rattle.std.specs.Prelude.{◌≡◌, [], ◌∷◌, ◌++◌, map, List, OnOk, OnErr, IfErr};
ghost use Rattle.pmf_verdict.specs.Checked.{Checked, checked_by};

use crossbeam_channel::{SendError, Sender};
use pmf_event::{Profile, Section};
use pmf_verdict::Verdict;
use std::alloc::{AllocError, Global};
use std::sync::{Arc, Wait};

/// Where a worker puts its verdicts. It tells what was put: the sections in their order, each with the profile by which
/// it was checked.
pub trait Outbox {
    /// What was put so far.
    ghost sent: { Self → List Checked };

    /// Puts the verdict. After want of memory nothing was put, and the verdict comes back. It may wait.
    fn put(&mut self, verdict: Verdict) -> Result<(), (AllocError, Verdict)>
        ensures put { OnOk result (sent self.new ≡ sent self.old ++ verdict ∷ []) }
        ensures unchanged { OnErr result (sent self.new ≡ sent self.old) }
        ensures returned { IfErr result (λ refused. refused.1 ≡ verdict) };
}

// A section that was sent, and the profile of its verdict.
#[derive(Drop)]
pub struct Sent {
    section: Arc<Section>,
    profile: Profile,
}

/// The outbox that sends verdicts through a channel, and keeps which sections it sent: 16 bytes for each, and room for
/// each is made before it is sent. A verdict for which there is no receiver any more is dropped, and counts as sent.
#[derive(Drop)]
pub struct ChannelOutbox<'a, R> {
    rt: &'a R,
    channel: Sender<Verdict, Global>,
    sent: Vec<Sent>,
}

impl<'a, R> ChannelOutbox<'a, R> {
    /// An outbox over the channel, which has sent nothing. Takes no memory.
    pub fn new(rt: &'a R, alloc: Global, channel: Sender<Verdict, Global>) -> ChannelOutbox<'a, R>
        ensures { result.sent.items ≡ [] }
    {
        ChannelOutbox {
            rt,
            channel,
            sent: Vec::new(alloc),
        }
    }
}

impl<'a, R: Wait> Outbox for ChannelOutbox<'a, R> {
    ghost sent = { λ o. map (λ s. checked_by s.profile s.section.value) o.sent.items };

    fn put(&mut self, verdict: Verdict) -> Result<(), (AllocError, Verdict)> {
        let Ok(section) = Arc::try_clone(verdict.section()) else {
            return Err((AllocError, verdict));
        };
        let profile = verdict.profile();
        if self.sent.reserve(1).is_err() {
            return Err((AllocError, verdict));
        }
        if let Err(SendError::OutOfMemory(verdict)) = self.channel.send(self.rt, verdict) {
            return Err((AllocError, verdict));
        }
        self.sent.push_reserved(Sent { section, profile });
        Ok(())
    }
}
