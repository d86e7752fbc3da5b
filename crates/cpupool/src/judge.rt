//! Commands, judged.

ghost use Rattle.std.specs.Prelude.{◌≡◌};
ghost use Rattle.sched_model.specs.Commands.{plan_reply};

use crate::tool::ToolState;
use sched_model::command::Command;
use sched_model::event::{Refusal, Reply};
use sched_model::facts::Facts;
use sched_model::plan::Plan;

/// The answer to an accepted command.
pub fn reply_of(plan: &Plan) -> Reply
    ensures { result ≡ plan_reply plan.now }
{
    match plan {
        Plan::PoolList { reply, .. } => *reply,
        Plan::PoolCreate { reply, .. } => *reply,
        Plan::PoolDestroy { reply, .. } => *reply,
        Plan::PoolRename { reply, .. } => *reply,
        Plan::CpuAdd { reply, .. } => *reply,
        Plan::CpuRemove { reply, .. } => *reply,
        Plan::Migrate { reply, .. } => *reply,
        Plan::Credit2Dom { reply, .. } => *reply,
        Plan::Credit2Pool { reply, .. } => *reply,
        Plan::RtdsDom { reply, .. } => *reply,
        Plan::Pause { reply, .. } => *reply,
        Plan::Unpause { reply, .. } => *reply,
        Plan::ArincSet { reply, .. } => *reply,
        Plan::Pin { reply, .. } => *reply,
    }
}

impl ToolState {
    ghost use Rattle.std.specs.Prelude.{◌≡◌};
    ghost use Rattle.sched_model.specs.declared.machine.Machine.{Machine};
    ghost use Rattle.sched_model.specs.declared.state.State.{State};
    ghost use Rattle.sched_model.specs.CheckedMachine.{IsCheckedCommand};
    ghost use Rattle.sched_model.specs.Commands.{judged_command};
    ghost use Rattle.cpupool.specs.Tool.{tool_of};
    ghost use Rattle.cpupool.specs.Facts.{command_facts, KeepsFacts};
    ghost use Rattle.cpupool.specs.Verdicts.{seen_verdict};

    /// What the command will do, or why it is refused: the first check that fails.
    ///
    /// The facts are those of the state for this command. They have a value for each unit of the domain that the command names.
    #[tactic(auto, using(crate::proofs::JudgeLemmas::judge_seen))]
    pub fn judge(&self, c: &Command, facts: &Facts) -> Result<Plan, Refusal>
        requires { IsCheckedCommand c.now }
        ensures { (m : Machine) → (s : State) → tool_of m s ≡ self.now
            → command_facts m s c.now ≡ facts.now → KeepsFacts m s c.now
            → result ≡ judged_command m s c.now }
    {
        self.seen_judge(c, facts)
    }

    /// The answer to the command.
    fn seen_judge(&self, command: &Command, facts: &Facts) -> Result<Plan, Refusal>
        requires { IsCheckedCommand command.now }
        ensures { result ≡ seen_verdict self.now facts.now command.now }
    {
        let units = facts.units.as_slice();
        match command {
            Command::PoolList { pool } => self.judge_pool_list(pool),
            Command::PoolCreate { name, sched } => self.judge_pool_create(name, *sched),
            Command::PoolDestroy { pool } => self.judge_pool_destroy(pool),
            Command::PoolRename { pool, name } => self.judge_pool_rename(pool, name),
            Command::CpuAdd { pool, cpu } => self.judge_cpu_add(pool, *cpu),
            Command::CpuRemove { pool, cpu } => self.judge_cpu_remove(pool, *cpu),
            Command::Migrate { dom, pool } => self.judge_migrate(dom, pool),
            Command::Credit2Dom { dom, weight, cap } => {
                self.judge_credit2_dom(units, dom, *weight, *cap)
            }
            Command::Credit2Pool { pool, limit } => {
                self.judge_credit2_pool(facts.rate, pool, *limit)
            }
            Command::RtdsDom {
                dom,
                vcpu,
                period,
                budget,
                extra,
            } => self.judge_rtds_dom(units, dom, *vcpu, *period, *budget, *extra),
            Command::Pause { dom } => self.judge_pause(dom),
            Command::Unpause { dom } => self.judge_unpause(dom),
            Command::ArincSet {
                pool,
                major,
                entries,
            } => self.judge_arinc_set(pool, *major, entries),
            Command::Pin { dom, vcpu, cpus } => self.judge_pin(dom, *vcpu, cpus),
        }
    }
}
