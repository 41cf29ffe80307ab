//! What a session hands out to workers at a start: for each node whose stores grow, a task for each
//! worker. A task for which there is no memory is left out, and what it would have done is done at
//! the await.

ghost use Rattle.std.specs.Prelude.{◌≡◌, ◌+◌, ◌≤◌};
ghost use Rattle.sz_versions.specs.Terms.{ℕ, false, map, arc_value, pieces_of, execution_of};
ghost use Rattle.sz_versions.specs.Terms.{IsKeptOf, AreKeptOf, IsShelfFor, keeping_of, IsLentTo};
ghost use Rattle.sz_versions.specs.Terms.{AreLent};

use crate::runs::{NodeKeeping, VersionRun};
use std::alloc::Global;
use std::sync::{Arc, Wait};
use sz_cells::NoMemory;
use sz_claims::{ClaimPass, Claims};
use sz_flow::NodeRun;
use sz_pool::{Sender, Task, hand_out, make_task};
use sz_script::StrategyList;
use sz_shelf::{Pass, Shelf};
use sz_spec::{Strategy, pieces_of};

/// Where tasks go, and for how many workers they are made.
#[derive(Drop)]
pub struct Hands {
    to: Sender<Task>,
    workers: u32,
}

impl Hands {
    /// Tasks go into this channel, for so many workers.
    pub fn of(to: Sender<Task>, workers: u32) -> Hands {
        Hands { to, workers }
    }

    /// Hands out the tasks of a version. The run is lent: passes are split off, and nothing else of
    /// it changes.
    pub fn hand_out<R: Wait>(
        &self,
        alloc: Global,
        rt: &R,
        version: u32,
        lists: &[StrategyList],
        run: &mut VersionRun,
    )
        requires { AreKeptOf false run.old.executions lists.now run.old.kept }
        ensures executions { run.new.executions ≡ run.old.executions }
        ensures kept { AreLent run.old.kept run.new.kept }
    {
        for node in 0..lists.len() {
            let list = lists[node].as_slice();
            let number = node.min(u32::MAX as usize) as u32;
            self.hand_out_node(
                alloc,
                rt,
                version,
                number,
                &run.runs[node],
                list,
                &mut run.stores[node],
            );
        }
    }

    /// Hands out the tasks of a node, where its stores grow, one for each worker at the most.
    fn hand_out_node<R: Wait>(
        &self,
        alloc: Global,
        rt: &R,
        version: u32,
        node: u32,
        run: &NodeRun,
        list: &[Strategy],
        stores: &mut NodeKeeping,
    )
        requires { IsKeptOf false (execution_of run.now) list.now (keeping_of stores.old) }
        ensures { IsLentTo self.now.workers (keeping_of stores.old) (keeping_of stores.new) }
    {
        let NodeKeeping::Growing { shelf, pass } = stores else {
            return;
        };
        let Ok((claims, mut claimant)) = Claims::new(alloc, pieces_of(run.at.out())) else {
            return;
        };
        for _ in 0..self.workers {
            let _ = self.hand_out_one(
                alloc,
                rt,
                version,
                node,
                run,
                list,
                shelf,
                pass,
                &claims,
                &mut claimant,
            );
        }
    }

    /// Hands out one task of a node.
    fn hand_out_one<R: Wait>(
        &self,
        alloc: Global,
        rt: &R,
        version: u32,
        node: u32,
        run: &NodeRun,
        list: &[Strategy],
        shelf: &Arc<Shelf>,
        pass: &mut Pass,
        claims: &Arc<Claims>,
        claimant: &mut ClaimPass,
    ) -> Result<(), NoMemory>
        requires own { IsShelfFor (execution_of run.now) list.now (arc_value shelf.now) pass.old }
        requires pieces { (arc_value claims.now).count ≡ pieces_of (arc_value run.now.at).out }
        requires claimant { claimant.old.table ≡ (arc_value claims.now).table }
        ensures pass { (n : ℕ) × (n ≤ 1)
            × (pass.new ≡ record pass.old { splits = pass.old.splits + n }) }
        ensures claimant { claimant.new.table ≡ claimant.old.table }
    {
        let pass = shelf.split(pass)?;
        let claimant = claims.split(claimant);
        let task = make_task(
            alloc, version, node, run, list, shelf, pass, claims, claimant,
        )?;
        hand_out(rt, &self.to, task);
        Ok(())
    }
}
