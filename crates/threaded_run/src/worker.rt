//! One worker: the commands of a file, one after another.
ghost use Rattle.std.specs.Prelude.{◌≡◌, [], None, IfOk};
ghost use Rattle.version_words.specs.Views.{calls};
ghost use Rattle.threaded_run.specs.Replies.{shown};
ghost use Rattle.threaded_run.specs.Runs.{EndedIs};

use crate::command::run_at;
use crate::gate::GateKeeper;
use crate::work_fault::WorkFault;
use command_file::Script;
use far_map::{Calls, Text, Work};
use std::alloc::Global;
use std::sync::Wait;

/// The files of a run, one for each worker, and its gate.
#[derive(Drop)]
pub(crate) struct Files<'a, G: GateKeeper> {
    scripts: &'a [Script],
    gate: &'a G,
}

impl<'a, G: GateKeeper> Files<'a, G> {
    pub(crate) fn new(scripts: &'a [Script], gate: &'a G) -> Files<'a, G>
        ensures { result.scripts.now ≡ scripts.now }
    {
        Files { scripts, gate }
    }
}

/// Runs the commands in order, each between the gate's two calls, and gives their lines.
fn work<S: Calls<Text>, G: GateKeeper, R: Wait>(
    rt: &R,
    alloc: Global,
    me: &mut S,
    gate: &G,
    number: u32,
    held: &mut Option<S::Held>,
    script: &Script,
) -> Result<Vec<u8>, WorkFault>
    requires new { calls (S.shown me.old).pass ≡ [] }
    requires unheld { shown S.held held.old ≡ None }
    ensures { IfOk result (λ lines. EndedIs S.limits (S.shown me.old).limit (S.shown me.old).pass script.now (record { pass = (S.shown me.new).pass; text = lines.items })) }
{
    let mut lines = Vec::new(alloc);
    for at in 0..script.len() {
        let call = at as u32 + 1;
        if !gate.lets_begin(number, call) {
            return Err(WorkFault::Gate);
        }
        run_at(rt, alloc, me, held, &mut lines, script, at)?;
        gate.sees_end(number, call);
    }
    Ok(lines)
}

/// The same by a worker that holds nothing. What it holds at the end is let go, also where the run is given up.
fn work_alone<S: Calls<Text>, G: GateKeeper, R: Wait>(
    rt: &R,
    alloc: Global,
    me: &mut S,
    gate: &G,
    number: u32,
    script: &Script,
) -> Result<Vec<u8>, WorkFault>
    requires new { calls (S.shown me.old).pass ≡ [] }
    ensures { IfOk result (λ lines. EndedIs S.limits (S.shown me.old).limit (S.shown me.old).pass script.now (record { pass = (S.shown me.new).pass; text = lines.items })) }
{
    let mut held = None;
    let ran = work(rt, alloc, me, gate, number, &mut held, script);
    match held {
        Some(value) => me.let_go(value),
        None => {}
    }
    ran
}

impl<'a, G: GateKeeper + Sync> Work<Text> for Files<'a, G> {
    ghost use Rattle.std.specs.Prelude.{[], IfOk, slice_index_or};
    ghost use Rattle.threaded_run.specs.Runs.{EndedIs};

    type Out = Result<Vec<u8>, WorkFault>;

    // The lines are what the file's commands were replied in the history of the worker's pass.
    ghost done = { λ files worker l begun ended out. IfOk out (λ lines. EndedIs l begun.limit begun.pass (slice_index_or files.scripts.now worker []) (record { pass = ended.pass; text = lines.items })) };

    fn work<S: Calls<Text>, R: Wait>(
        &self,
        rt: &R,
        alloc: Global,
        worker: u32,
        me: &mut S,
    ) -> Result<Vec<u8>, WorkFault> {
        match self.scripts.get(worker as usize) {
            Some(script) => {
                work_alone(rt, alloc, me, self.gate, worker.saturating_add(1), script)
            }
            None => Ok(Vec::new(alloc)),
        }
    }
}
