// Where a begun operation stands.
ghost use Rattle.std.specs.Prelude.{◌≡◌};
ghost use Rattle.hardware.specs.Talk.{and_then};
ghost use Rattle.jobs.specs.Job.{job_talk};
ghost use Rattle.access.specs.Access.{told_access};
ghost use Rattle.after.specs.After.{out, resume_after, told_after};
ghost use Rattle.started.specs.Operation.{resume_op, told};

use access::place::{Access, Begun};
use after::After;
use answers::Value;
use drive::Host;
use hardware::{Action, Error, Port, Reply, Step};
use jobs::job::{Ended, Job};
use run_access::lent::{Lent, Runs, run};

// A running operation, at the action that its access asks for.
#[derive(Clone, Copy)]
pub struct Op {
    pub access: Access,
    pub after: After,
}

impl Op {
    // The next access begins.
    #[tactic(auto, using(hardware::proofs::Laws::then_assoc))]
    pub fn begun(
        port: Port,
        block: &mut [u32; 80],
        job: Job,
        after: After,
    ) -> Step<Action, Op, Ended<Value>>
        ensures { told port result block.new ≡ and_then (job_talk port job block.old) (λ p. resume_after port after p.0 p.1) }
    {
        let begun = Begun::of(job, port, block);
        let access = begun.access;
        Step::Ask(begun.action, Op { access, after })
    }

    #[tactic(auto, using(hardware::proofs::Laws::then_assoc))]
    pub fn decided(
        port: Port,
        block: &mut [u32; 80],
        step: Step<Job, After, Ended<Value>>,
    ) -> Step<Action, Op, Ended<Value>>
        ensures { told port result block.new ≡ told_after port block.old step }
    {
        match step {
            Step::Ask(job, after) => Op::begun(port, block, job, after),
            Step::Done(ended) => Step::Done(ended),
        }
    }

    #[tactic(auto, using(hardware::proofs::Laws::then_assoc))]
    pub fn stepped(
        port: Port,
        after: After,
        block: &mut [u32; 80],
        step: Step<Action, Access, Ended<u32>>,
    ) -> Step<Action, Op, Ended<Value>>
        ensures { told port result block.new ≡ and_then (told_access block.old step) (λ p. resume_after port after p.0 p.1) }
    {
        match step {
            Step::Ask(a, access) => Step::Ask(a, Op { access, after }),
            Step::Done(given) => {
                let next = after.next(port, block, given);
                Op::decided(port, block, next)
            }
        }
    }
}

impl Lent for Op {
    type Context = Port;

    type Answer = Ended<Value>;

    // the answer, and the words of the block that belong to it
    type End = (Result<Value, Error>, [u32; 80]);

    ghost resume = { λ port s b r. resume_op port s r b };

    ghost end = { λ port b ended. out b ended };

    fn next(
        self,
        port: Port,
        block: &mut [u32; 80],
        reply: Reply,
    ) -> Step<Action, Op, Ended<Value>> {
        let step = self.access.next(block, reply);
        Op::stepped(port, self.after, block, step)
    }
}

impl Runs for Op {
    // As far as its access goes by itself.
    fn advance(
        self,
        a: Action,
        port: Port,
        block: &mut [u32; 80],
        h: &mut Host,
        replies: &[u32],
        t: &mut [u32],
    ) -> Step<Action, Op, Ended<Value>> {
        let step = run(self.access, a, (), block, h, replies, t);
        Op::stepped(port, self.after, block, step)
    }
}
