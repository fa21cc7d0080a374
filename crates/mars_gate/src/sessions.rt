//! Sessions as jobs: an event of a session is an event of its job.
ghost use Rattle.std.specs.Prelude.{refl};
ghost use Rattle.std.proofs.Common.{◌∙◌};
ghost use Rattle.mars_gate.specs.SessionJobs.{session_job, LacksReply, IsLaterSession, HasComeThrough};

use crate::job::{Advance, Job};
use mars_session::{Event, Session, event};
use mars_table::Door;

impl<'a> Job for Session<'a> {
    ghost job = { session_job };

    ghost Lacks = { LacksReply };

    ghost IsDone = { HasComeThrough };

    ghost Later = { IsLaterSession };

    ghost later_itself = { λ s. record { part = refl; leaves = λ l. l } };

    ghost later_on = { λ r s t p q. record { part = q.part ∙ p.part; leaves = λ l. q.leaves (p.leaves l) } };

    fn event<D: Door>(&mut self, door: &mut D) -> Advance {
        let came = event(self, door);
        // what its type keeps of the point that it has come to
        let _text = self.text();
        match came {
            Event::Done => Advance::Done,
            _ => Advance::Went,
        }
    }
}
