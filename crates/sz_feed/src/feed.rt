//! Between the source and the session: bytes are taken in, lines are cut and numbered, each line
//! is answered, and its reply is said before the next line is looked at.
//!
//! Contracts see a feed as a `Moment`: what is held, the line that has not ended, and its number.
//! What the feed keeps of a line past the limit is less than came of it, and *like* it: it tells
//! the same whatever comes behind it. So every call says of the moment after it that it is like the
//! one which kept all.
//!
//! A session of a log writes what a line makes durable before the line's reply is said, and asks do
//! not wait there. So a stop finds the replies of so many lines, and a part of the next one's, and
//! the log of what is durable behind those lines or behind the next one too (`FindsBehind`).
ghost use Rattle.std.specs.Prelude.{◌≡◌, ◌<◌, ◌≤◌, ◌+◌, ◌-◌, ◌^◌, ◌++◌, ◌∷◌};
ghost use Rattle.sz_feed.specs.Terms.{ℕ, List, Option, [], IfOk, OnOk, MatchOption, length, drop};
ghost use Rattle.sz_feed.specs.Terms.{take, slice_index, true, false, None, AllByRecursion, apart};
ghost use Rattle.sz_feed.specs.Terms.{is_blank, is_within_line, last_line, after_lines, is_right};
ghost use Rattle.sz_feed.specs.Terms.{moment_before, cut_after, told_in, told_at_end, Alike};
ghost use Rattle.sz_feed.specs.Terms.{Advances, line_to_say, nothing_held, IsAskLine, asks_text};
ghost use Rattle.sz_feed.specs.Terms.{LineGives, IsRight, Takes, Lags, SaysBy, told_text, IsBeside};
ghost use Rattle.sz_feed.specs.Terms.{SaysText, SaysReplies, IsSaid, IsTaken, IsAnswered};
ghost use Rattle.sz_feed.specs.Terms.{AreWaiting, stop_halt};
ghost use Rattle.sz_commands.specs.declared.session.Given.TheVariants as given;
ghost use Rattle.sz_feed.specs.declared.feed.Halt.TheVariants as halt;

use std::alloc::Global;
use std::marker::Model;
use std::sync::Wait;
use std::thread::Threads;
use sz_catalogue::{Reply, reply_text};
use sz_cells::NoMemory;
use sz_commands::{AskLine, Given, Session, Stop, is_blank};
use sz_outside::{Failed, Gate, Station};
use sz_script::{Command, LINE_LIMIT};
use sz_spec::Tally;

/// What is held, and what was read of the line that has not ended.
#[derive(Drop)]
pub struct Feed {
    session: Session,
    pending: Vec<u8>,
    number: u64,
    alloc: Global,
}

impl Model for Feed {
    ghost use Rattle.sz_commands.specs.States.{apart};
    ghost use Rattle.sz_feed.specs.Moments.{Moment};

    ghost Value = { Moment };

    ghost view = { λ f. record {
      held = apart f.session;
      pending = f.pending.items;
      number = f.number;
      end = f.session.end;
    } };
}

/// Why a session stopped within a chunk.
#[derive(Clone, Copy, Debug, Drop, PartialEq, Eq)]
pub enum Halt {
    SayFault,
    DiskFault,
    NoMemory,
}

/// A say that failed.
impl From<Failed> for Halt {
    ghost from_gives = { λ _ e. e ≡ halt.SayFault };

    fn from(_fault: Failed) -> Halt {
        Halt::SayFault
    }
}

/// A line that was not taken.
impl From<Stop> for Halt {
    ghost from_gives = { λ stop e. e ≡ stop_halt stop };

    fn from(stop: Stop) -> Halt {
        match stop {
            Stop::DiskFault => Halt::DiskFault,
            Stop::NoMemory => Halt::NoMemory,
        }
    }
}

impl From<NoMemory> for Halt {
    ghost from_gives = { λ _ e. e ≡ halt.NoMemory };

    fn from(_fault: NoMemory) -> Halt {
        Halt::NoMemory
    }
}

impl Feed {
    /// Nothing was read, and nothing is held. The session has so many workers and askers.
    pub fn new(alloc: Global, workers: u32, askers: u32) -> Result<Feed, NoMemory>
        requires workers { (1 ≤ workers) × (workers ≤ 64) }
        requires askers { (1 ≤ askers) × (askers ≤ 64) }
        ensures { IfOk result (λ f. f ≡ moment_before nothing_held) }
    {
        let session = Session::fresh(alloc, workers, askers)?;
        Ok(Feed {
            session,
            pending: Vec::new(alloc),
            number: 1,
            alloc,
        })
    }

    /// Nothing was read yet, of a session.
    pub fn over(alloc: Global, session: Session) -> Feed
        ensures { result ≡ record {
          held = apart session;
          pending = [];
          number = 1;
          end = session.end;
        } }
    {
        Feed {
            session,
            pending: Vec::new(alloc),
            number: 1,
            alloc,
        }
    }

    /// The session whose lines it takes in.
    pub fn session(&self) -> &Session {
        &self.session
    }

    /// Takes in a chunk of what the source gave, and says the replies of the lines that end in it.
    /// Beside what its lines take, it takes time in the length of the chunk. Where the session has
    /// several askers, asks that stand behind one another are answered at the same time, as many at
    /// once as there are askers.
    pub fn take_chunk<T: Station, G: Gate, R: Threads + Wait + Sync>(
        &mut self,
        rt: &R,
        chunk: &[u8],
        station: &mut T,
        gate: &G,
    ) -> Result<(), Halt>
        requires number { self.old.number + length chunk.now < 2 ^ 64 }
        requires log { IsBeside T.Station self.old station.old }
        ensures chunk { OnOk result (
            Advances (T.said station.old) (T.said station.new) self.old self.new chunk.now) }
        ensures number { OnOk result (self.new.number ≤ self.old.number + length chunk.now) }
        ensures says { SaysReplies result (T.said station.old) (T.said station.new)
            self.old.held self.old.number (cut_after self.old chunk.now).whole }
        ensures answered { IsAnswered T.Station result self.old self.new
            [] (cut_after self.old chunk.now).whole station.old station.new }
    {
        let mut waiting = Vec::new(self.alloc);
        let mut start = 0;
        while let Some(at) = newline_from(chunk, start) {
            self.extend(&chunk[start..at])?;
            self.take_line(rt, &mut waiting, station, gate)?;
            start = at + 1;
        }
        self.extend(&chunk[start..])?;
        self.say_waiting(rt, &mut waiting, station, gate)
    }

    /// Ends the input: the line that has not ended is answered where it has bytes.
    pub fn end_input<T: Station, G: Gate, R: Threads + Wait + Sync>(
        &mut self,
        rt: &R,
        station: &mut T,
        gate: &G,
    ) -> Result<(), Halt>
        requires number { self.old.number + 1 < 2 ^ 64 }
        requires log { IsBeside T.Station self.old station.old }
        ensures says { SaysText result (T.said station.old) (T.said station.new)
            (told_at_end self.old) }
        ensures held { OnOk result
            (self.new.held.held ≡ (after_lines self.old.held (last_line self.old.pending)).held) }
        ensures answered { IsAnswered T.Station result self.old self.new
            [] (last_line self.old.pending) station.old station.new }
    {
        if self.pending.as_slice().is_empty() {
            Ok(())
        } else {
            self.end_line(rt, station, gate)
        }
    }

    /// Takes in bytes of the line that has not ended. Of a line past the limit no more is kept than
    /// tells its reply.
    fn extend(&mut self, bytes: &[u8]) -> Result<(), NoMemory>
        requires { is_within_line bytes.now ≡ true }
        ensures takes { OnOk result (
            (said : Option (List ℕ)) → Advances said said self.old self.new bytes.now) }
        ensures number { self.new.number ≡ self.old.number }
        ensures held { self.new.held ≡ self.old.held }
        ensures end { self.new.end ≡ self.old.end }
    {
        let kept = bytes_to_keep(&self.pending, bytes);
        self.pending.extend_from_slice(kept)?;
        Ok(())
    }

    /// Ends the line that has not ended: says its reply where it has one, and begins the next line.
    fn end_line<T: Station, G: Gate, R: Threads + Wait + Sync>(
        &mut self,
        rt: &R,
        station: &mut T,
        gate: &G,
    ) -> Result<(), Halt>
        requires number { self.old.number + 1 < 2 ^ 64 }
        requires log { IsBeside T.Station self.old station.old }
        ensures line { OnOk result (
            Advances (T.said station.old) (T.said station.new) self.old self.new (10 ∷ [])) }
        ensures next { OnOk result (self.new.number ≡ self.old.number + 1) }
        ensures says { SaysText result (T.said station.old) (T.said station.new)
            (told_in self.old (10 ∷ [])) }
        ensures answered { IsAnswered T.Station result self.old self.new
            [] (cut_after self.old (10 ∷ [])).whole station.old station.new }
    {
        let given = self.session.read(&self.pending)?;
        self.end_with(rt, given, station, gate)
    }

    /// Ends the line that has not ended, which gives this.
    fn end_with<T: Station, G: Gate, R: Threads + Wait + Sync>(
        &mut self,
        rt: &R,
        given: Given,
        station: &mut T,
        gate: &G,
    ) -> Result<(), Halt>
        requires number { self.old.number + 1 < 2 ^ 64 }
        requires gives { LineGives self.old.pending given }
        requires right { IsRight given }
        requires log { IsBeside T.Station self.old station.old }
        ensures line { OnOk result (
            Advances (T.said station.old) (T.said station.new) self.old self.new (10 ∷ [])) }
        ensures next { OnOk result (self.new.number ≡ self.old.number + 1) }
        ensures says { SaysText result (T.said station.old) (T.said station.new)
            (told_in self.old (10 ∷ [])) }
        ensures answered { IsAnswered T.Station result self.old self.new
            [] (cut_after self.old (10 ∷ [])).whole station.old station.new }
    {
        let number = self.number;
        let reply = self.take(rt, given, station, gate)?;
        say(self.alloc, number, reply, station)?;
        self.next_line();
        Ok(())
    }

    /// Has the session take the line that has not ended, which gives this, and gives its reply.
    fn take<T: Station, G: Gate, R: Threads + Wait + Sync>(
        &mut self,
        rt: &R,
        given: Given,
        station: &mut T,
        gate: &G,
    ) -> Result<Option<Reply>, Halt>
        requires gives { LineGives self.old.pending given }
        requires right { IsRight given }
        requires log { IsBeside T.Station self.old station.old }
        ensures reply { IfOk result (λ r. Takes self.old.held given self.new.held r) }
        ensures same { OnOk result
            (self.new ≡ record self.old { held = self.new.held; end = self.new.end }) }
        ensures taken { IsTaken T.Station result self.old self.new station.old station.new }
    {
        let mut tally = Tally::new();
        let reply = self.session.take_on(
            rt,
            given,
            &self.pending,
            self.number,
            station,
            gate,
            &mut tally,
        )?;
        Ok(reply)
    }

    /// Begins the next line.
    fn next_line(&mut self)
        requires { self.old.number + 1 < 2 ^ 64 }
        ensures { self.new ≡ record self.old { pending = []; number = self.old.number + 1 } }
    {
        self.pending.clear();
        self.number += 1;
    }

    /// Ends the line that has not ended, behind asks that wait. An ask waits too, where there are
    /// several askers and no log; before any other line, and where as many wait as there are
    /// askers, the replies of those that wait are said.
    fn take_line<T: Station, G: Gate, R: Threads + Wait + Sync>(
        &mut self,
        rt: &R,
        waiting: &mut Vec<AskLine>,
        station: &mut T,
        gate: &G,
    ) -> Result<(), Halt>
        requires number { self.old.number + 1 < 2 ^ 64 }
        requires waiting { AreWaiting self.old.end waiting.old.items }
        requires log { IsBeside T.Station self.old station.old }
        ensures lags { OnOk result (Lags (T.said station.old) (T.said station.new)
            self.old self.new waiting.old.items waiting.new.items) }
        ensures says { SaysBy result (T.said station.old) (T.said station.new)
            (asks_text self.old.held waiting.old.items) (told_in self.old (10 ∷ [])) }
        ensures next { OnOk result (self.new.number ≡ self.old.number + 1) }
        ensures waiting { OnOk result (AreWaiting self.new.end waiting.new.items) }
        ensures answered { IsAnswered T.Station result self.old self.new
            (asks_text self.old.held waiting.old.items) (cut_after self.old (10 ∷ [])).whole
            station.old station.new }
    {
        let given = self.session.read(&self.pending)?;
        match given {
            Given::Ask(ask) if self.has_askers() => {
                self.take_ask(rt, ask, waiting, station, gate)
            }
            given => {
                self.say_waiting(rt, waiting, station, gate)?;
                self.end_with(rt, given, station, gate)
            }
        }
    }

    /// Whether asks are answered beside one another: there are several askers, and no log.
    fn has_askers(&self) -> bool
        ensures { result ≡ true → self.now.end ≡ None }
    {
        !self.session.has_log() && self.session.has_askers()
    }

    /// Ends the line that has not ended, which gives an ask: it waits behind others, whose replies
    /// are said first where there are as many as askers. The session has no log.
    fn take_ask<T: Station, G: Gate, R: Threads + Wait + Sync>(
        &mut self,
        rt: &R,
        ask: Command,
        waiting: &mut Vec<AskLine>,
        station: &mut T,
        gate: &G,
    ) -> Result<(), Halt>
        requires number { self.old.number + 1 < 2 ^ 64 }
        requires gives { LineGives self.old.pending (given.Ask ask) }
        requires right { is_right ask ≡ true }
        requires asks { AllByRecursion IsAskLine waiting.old.items }
        requires few { length waiting.old.items ≤ 64 }
        ensures lags { OnOk result (Lags (T.said station.old) (T.said station.new)
            self.old self.new waiting.old.items waiting.new.items) }
        ensures says { SaysBy result (T.said station.old) (T.said station.new)
            (asks_text self.old.held waiting.old.items) (told_in self.old (10 ∷ [])) }
        ensures next { OnOk result
            (self.new ≡ record self.old { pending = []; number = self.old.number + 1 }) }
        ensures waiting { OnOk result (AreWaiting None waiting.new.items) }
        ensures said { IsSaid T.Station result
            (asks_text self.old.held waiting.old.items ++ told_in self.old (10 ∷ []))
            station.old station.new }
    {
        if !self.session.is_full(waiting.len()) {
            return Ok(self.wait(ask, waiting)?);
        }
        self.say_waiting(rt, waiting, station, gate)?;
        Ok(self.wait(ask, waiting)?)
    }

    /// Has the line that has not ended, which gives an ask, wait, and begins the next line.
    fn wait(&mut self, ask: Command, waiting: &mut Vec<AskLine>) -> Result<(), NoMemory>
        requires { self.old.number + 1 < 2 ^ 64 }
        ensures waits { OnOk result (waiting.new.items
            ≡ waiting.old.items ++ record { number = self.old.number; ask = ask } ∷ []) }
        ensures next { OnOk result
            (self.new ≡ record self.old { pending = []; number = self.old.number + 1 }) }
    {
        waiting.push(AskLine {
            number: self.number,
            ask,
        })?;
        self.next_line();
        Ok(())
    }

    /// Has the asks that wait answered, and says their replies, in their order: all of them, or
    /// where memory is refused none. Where no ask waits nothing is done.
    fn say_waiting<T: Station, G: Gate, R: Threads + Wait + Sync>(
        &mut self,
        rt: &R,
        waiting: &mut Vec<AskLine>,
        station: &mut T,
        gate: &G,
    ) -> Result<(), Halt>
        requires asks { AllByRecursion IsAskLine waiting.old.items }
        requires few { length waiting.old.items ≤ 64 }
        ensures says { SaysText result (T.said station.old) (T.said station.new)
            (asks_text self.old.held waiting.old.items) }
        ensures said { IsSaid T.Station result (asks_text self.old.held waiting.old.items)
            station.old station.new }
        ensures none { OnOk result (waiting.new.items ≡ []) }
        ensures same { self.new ≡ self.old }
        ensures idle { waiting.old.items ≡ [] → station.new ≡ station.old }
    {
        if waiting.is_empty() {
            return Ok(());
        }
        let mut tally = Tally::new();
        let replies = self.session.asks(rt, waiting, gate, &mut tally)?;
        let text = reply_texts(self.alloc, waiting, &replies)?;
        station.say(&text)?;
        waiting.clear();
        Ok(())
    }
}

/// The reply lines of these replies to these lines.
fn reply_texts(alloc: Global, lines: &[AskLine], replies: &[Reply]) -> Result<Vec<u8>, NoMemory>
    requires { length replies.now ≡ length lines.now }
    ensures { IfOk result (λ t. t.items ≡ told_text lines.now replies.now) }
{
    let mut text = Vec::new(alloc);
    for place in 0..lines.len() {
        let line = reply_text(alloc, lines[place].number, &replies[place])?;
        text.extend_from_slice(&line)?;
    }
    Ok(text)
}

/// Says the reply of the line of this number, where it has one: all of it, or where memory is
/// refused nothing.
fn say<T: Station>(
    alloc: Global,
    number: u64,
    reply: Option<Reply>,
    station: &mut T,
) -> Result<(), Halt>
    ensures says { SaysText result (T.said station.old) (T.said station.new)
        (line_to_say number reply) }
    ensures said { IsSaid T.Station result (line_to_say number reply) station.old station.new }
{
    let Some(reply) = reply else {
        return Ok(());
    };
    let line = reply_text(alloc, number, &reply)?;
    station.say(&line)?;
    Ok(())
}

/// The place of the first byte 10 from a place on.
fn newline_from(chunk: &[u8], start: usize) -> Option<usize>
    requires { start ≤ length chunk.now }
    ensures { MatchOption result (is_within_line (drop start chunk.now) ≡ true)
        (λ at. (start ≤ at) × (at < length chunk.now) × (slice_index chunk.now at ≡ 10)
        × (is_within_line (take (at - start) (drop start chunk.now)) ≡ true)) }
{
    for at in start..chunk.len() {
        if chunk[at] == b'\n' {
            return Some(at);
        }
    }
    None
}

/// As many of the bytes as have to stand behind a line that has not ended, so that its reply is as
/// if all of them did: a line past the limit is refused, or has no reply where it is blank,
/// whatever comes behind it.
fn bytes_to_keep<'a>(line: &[u8], bytes: &'a [u8]) -> &'a [u8]
    ensures alike { Alike (line.now ++ result.now) (line.now ++ bytes.entry.now) }
    ensures few { 33554432 < length line.now → length result.now ≤ 1 }
{
    if line.len() <= LINE_LIMIT {
        return bytes;
    }
    if is_blank(bytes) {
        return &bytes[..0];
    }
    let end = &line[line.len() - 1..];
    if is_blank(end) {
        first_filled(bytes)
    } else {
        &bytes[..0]
    }
}

/// The first byte that is not blank.
fn first_filled(bytes: &[u8]) -> &[u8]
    requires { is_blank bytes.now ≡ false }
    ensures filled { is_blank result.now ≡ false }
    ensures one { length result.now ≡ 1 }
{
    for at in 0..bytes.len() {
        let one = &bytes[at..at + 1];
        if !is_blank(one) {
            return one;
        }
    }
    unreachable!()
}
