// A whole schedule.
ghost use Rattle.std.specs.Prelude.{◌≡◌, ◌++◌, ◌∷◌, [], IfErr, IfOk, OnErr, OnOk, Option, length};
ghost use Rattle.mapping_model.specs.declared.reply.Reply.{Reply};
ghost use Rattle.request_journal.specs.declared.event.Event.{Event};
ghost use Rattle.world_core.specs.Schedule.{IsStep, IsStopped, Runs};

use crate::step::Step;
use crate::world::World;
use mapping_model::reply::Reply;
use std::alloc::AllocError;

/// Memory ran out in a step, which changed nothing.
#[derive(Clone, Copy, Debug)]
pub struct Stopped {
    /// How many steps were made before it.
    pub made: usize,
}

impl World {
    /// Makes the steps in their order, and gives for each the reply, where it gave one. Where memory runs out in a
    /// step, those before it stand.
    pub fn run(&mut self, steps: Vec<Step>) -> Result<Vec<Option<Reply>>, Stopped>
        ensures ok { IfOk result (λ replies. Runs self.old steps.items replies.items self.new) }
        ensures err { IfErr result (λ stopped. IsStopped self.old steps.items stopped.made self.new) }
    {
        let mut replies = Vec::new(self.allocator());
        match self.run_into(steps, &mut replies) {
            Ok(()) => Ok(replies),
            Err(_error) => Err(Stopped {
                made: replies.len(),
            }),
        }
    }

    // Where memory runs out there are as many replies as steps were made.
    fn run_into(
        &mut self,
        steps: Vec<Step>,
        replies: &mut Vec<Option<Reply>>,
    ) -> Result<(), AllocError>
        requires { replies.old.items ≡ [] }
        ensures ok { OnOk result (Runs self.old steps.items replies.new.items self.new) }
        ensures err { OnErr result (IsStopped self.old steps.items (length replies.new.items) self.new) }
    {
        for step in steps {
            self.step_into(step, replies)?;
        }
        Ok(())
    }

    // Makes room for the reply first, so that each step that is made has its reply.
    fn step_into(&mut self, step: Step, replies: &mut Vec<Option<Reply>>) -> Result<(), AllocError>
        ensures ok { OnOk result ((reply : Option Reply) × (event : Option Event)
            × IsStep self.old step (record { event = event; reply = reply }) self.new
            × (replies.new.items ≡ replies.old.items ++ reply ∷ [])) }
        ensures err { OnErr result ((self.new ≡ self.old) × (replies.new.items ≡ replies.old.items)) }
    {
        replies.reserve(1)?;
        let reply = self.step(step)?;
        let Ok(()) = replies.push(reply) else {
            unreachable!()
        };
        Ok(())
    }
}
