//! Asks beside one another: each is judged and looked up in turn, then several threads answer, and
//! the replies come in the order of the lines.

ghost use Rattle.std.specs.Prelude.{◌≡◌, ◌+◌, ◌*◌, ◌^◌, ◌<◌, ◌≤◌, map, length, IfOk, OnOk};
ghost use Rattle.std.specs.List.{AllZip};
ghost use Rattle.sz_catalogue.specs.Seen.{response_of};
ghost use Rattle.sz_commands.specs.Asks.{IsWorked, IsEnded, ask_reply, traced_for_asks};
ghost use Rattle.sz_commands.specs.Asks.{most_for_asks};
ghost use Rattle.sz_commands.specs.Commands.{traced_for, most_for};
ghost use Rattle.sz_commands.specs.declared.asking.Asked.TheVariants as asked;

use crate::session::Session;
use std::alloc::Global;
use std::sync::Wait;
use std::thread::Threads;
use std::{mem, thread};
use sz_catalogue::Reply;
use sz_cells::NoMemory;
use sz_outside::Gate;
use sz_query::{Found, Spare};
use sz_script::{Command, Refusal};
use sz_spec::Tally;
use sz_versions::Inquiry;

/// An ask, with the number of its line.
#[derive(Drop)]
pub struct AskLine {
    pub number: u64,
    pub ask: Command,
}

/// How many asks are answered at the same time at most.
#[derive(Clone, Copy, Drop)]
pub struct Askers {
    count: u32,
    ghost some: { 0 < count },
    ghost few: { count ≤ 64 },
}

impl Askers {
    /// So many.
    pub(crate) fn of(count: u32) -> Askers
        requires some { 1 ≤ count }
        requires few { count ≤ 64 }
    {
        Askers { count }
    }

    /// How many.
    pub(crate) fn count(self) -> usize
        ensures some { 0 < result }
        ensures few { result ≤ 64 }
    {
        self.count as usize
    }
}

/// How far an ask is.
#[derive(Drop)]
pub enum Asked {
    /// A rule refuses it.
    Refused { rule: Refusal },
    /// It is to be answered: the number of its line, and what is asked.
    Open { number: u64, inquiry: Inquiry },
    /// Its answer was found, with so much told as traced.
    Done { found: Found, tally: Tally },
    /// There was no memory for its answer.
    Lost,
}

impl Asked {
    /// Answers an ask that is open, by bitmaps that are made for it alone, and then calls the gate.
    fn work<G: Gate, R: Wait>(&mut self, alloc: Global, rt: &R, gate: &G)
        ensures { IsWorked self.old self.new }
    {
        match mem::replace(self, Asked::Lost) {
            Asked::Open { number, inquiry } => {
                let mut spare = Spare::new(alloc);
                let mut tally = Tally::new();
                if let Ok(found) = inquiry.answer(alloc, rt, &mut spare, &mut tally) {
                    gate.after_ask(number);
                    *self = Asked::Done { found, tally };
                }
            }
            other => *self = other,
        }
    }
}

/// Answers each ask that is open, in so many threads at most. The gate is called for each behind
/// its answer, in the thread that found it.
pub(crate) fn work_out<G: Gate, R: Threads + Wait + Sync>(
    alloc: Global,
    rt: &R,
    gate: &G,
    askers: Askers,
    all: &mut [Asked],
)
    ensures { AllZip IsWorked all.old all.new }
{
    thread::for_each_mut(
        rt,
        all,
        askers.count(),
        &|_, one: &mut Asked|
            ensures { IsWorked one.old one.new }
        { one.work(alloc, rt, gate) },
    );
}

impl Session {
    /// The replies to asks that were worked on, in their order. The session is lent for the
    /// contract alone: what it holds says what they are.
    pub(crate) fn replies_to(
        &self,
        lines: &[AskLine],
        all: Vec<Asked>,
        alloc: Global,
        tally: &mut Tally,
    ) -> Result<Vec<Reply>, NoMemory>
        requires ended { AllZip (IsEnded self.now) lines.now all.items }
        requires room { tally.old + length lines.now * 33554432 < 2 ^ 63 }
        ensures replies { IfOk result
            (λ rs. map response_of rs.items ≡ map (ask_reply self.now) lines.now) }
        ensures least { OnOk result
            (tally.old + traced_for_asks self.now lines.now ≤ tally.new) }
        ensures most { OnOk result (tally.new ≤ tally.old + most_for_asks self.now lines.now) }
    {
        let mut all = all;
        let mut replies = Vec::with_capacity(alloc, lines.len())?;
        for place in 0..lines.len() {
            replies.push(self.reply_to(&lines[place], &mut all[place], tally)?)?;
        }
        Ok(replies)
    }

    /// The reply to an ask that was worked on, which is used up. The session and the line are lent
    /// for the contract alone.
    fn reply_to(
        &self,
        _line: &AskLine,
        one: &mut Asked,
        tally: &mut Tally,
    ) -> Result<Reply, NoMemory>
        requires ended { IsEnded self.now _line.now one.old }
        requires room { tally.old + 33554432 < 2 ^ 63 }
        ensures reply { IfOk result (λ r. response_of r ≡ ask_reply self.now _line.now) }
        ensures least { OnOk result (tally.old + traced_for self.now _line.now.ask ≤ tally.new) }
        ensures most { OnOk result (tally.new ≤ tally.old + most_for self.now _line.now.ask) }
        ensures few { tally.new ≤ tally.old + 33554432 }
        ensures used { one.new ≡ asked.Lost }
    {
        match mem::replace(one, Asked::Lost) {
            Asked::Refused { rule } => Ok(Reply::Refused(rule)),
            Asked::Done { found, tally: more } => {
                tally.add(more);
                Ok(Reply::Cells { cells: found.cells })
            }
            Asked::Open { .. } | Asked::Lost => Err(NoMemory),
        }
    }
}
