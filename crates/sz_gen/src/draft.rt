//! A session's text while it is written, beside the generator of its draws.
//!
//! Each call appends one definition's text and leaves the generator's number after its draws. What
//! is written and which draws were made depends on the order of the calls alone.

ghost use Rattle.std.specs.Prelude.{◌≡◌, ◌*◌, ◌<◌, ◌++◌};
ghost use Rattle.sz_gen.specs.Terms.{[], codes, decimal, OnOk, next_number, number_after, draw_of};
ghost use Rattle.sz_gen.specs.Terms.{separator, row_text, rows_text, array_line, ask_line, triple};
ghost use Rattle.sz_gen.specs.Terms.{triples, flow_line, strategy_lines, start_line, await_line};
ghost use Rattle.sz_gen.specs.Terms.{text_of_lines};

use crate::NoMemory;
use itoa::Buffer;
use std::alloc::Global;

const MULTIPLIER: u64 = 6364136223846793005;

const INCREMENT: u64 = 1442695040888963407;

/// What is written so far, and the generator's number.
#[derive(Drop)]
pub struct Draft {
    pub text: Vec<u8>,
    pub number: u64,
}

impl Draft {
    /// No text yet, and a generator that starts at the seed.
    pub fn new(alloc: Global, seed: u32) -> Self
        ensures text { result.text.items ≡ [] }
        ensures number { result.number ≡ seed }
    {
        Draft {
            text: Vec::new(alloc),
            number: u64::from(seed),
        }
    }

    /// Appends the line that loads an array: a grid of draws of `below`.
    #[tactic(auto, unfolding(crate::specs::Session::array_line))]
    pub fn push_array(
        &mut self,
        name: &[u8],
        rows: u32,
        columns: u32,
        below: u64,
    ) -> Result<(), NoMemory>
        requires { 0 < below }
        ensures text { OnOk result (self.new.text.items ≡ self.old.text.items
            ++ (array_line name.now self.old.number rows columns below ++ codes "\n")) }
        ensures number { OnOk result
            (self.new.number ≡ number_after self.old.number (rows * columns)) }
    {
        self.push(br#"{"array":""#)?;
        self.push(name)?;
        self.push(br#"","cells":"#)?;
        self.push_rows(rows, columns, below)?;
        self.push_line(b"}")
    }

    /// Appends a list of rows of draws of `below`.
    fn push_rows(&mut self, rows: u32, columns: u32, below: u64) -> Result<(), NoMemory>
        requires { 0 < below }
        ensures text { OnOk result
            (self.new.text.items
            ≡ self.old.text.items ++ rows_text self.old.number rows columns below) }
        ensures number { OnOk result
            (self.new.number ≡ number_after self.old.number (rows * columns)) }
    {
        self.push(b"[")?;
        for line in 0..rows {
            self.push_comma(line)?;
            self.push_row(columns, below)?;
        }
        self.push(b"]")
    }

    /// Appends a list of draws of `below`.
    fn push_row(&mut self, columns: u32, below: u64) -> Result<(), NoMemory>
        requires { 0 < below }
        ensures text { OnOk result
            (self.new.text.items ≡ self.old.text.items ++ row_text self.old.number columns below) }
        ensures number { OnOk result (self.new.number ≡ number_after self.old.number columns) }
    {
        self.push(b"[")?;
        for column in 0..columns {
            self.push_comma(column)?;
            self.push_draw(below)?;
        }
        self.push(b"]")
    }

    /// Appends the comma that stands before each item of a list but the first.
    fn push_comma(&mut self, index: u32) -> Result<(), NoMemory>
        ensures text { OnOk result (self.new.text.items ≡ self.old.text.items ++ separator index) }
        ensures number { self.new.number ≡ self.old.number }
    {
        if index == 0 { Ok(()) } else { self.push(b",") }
    }

    /// Appends a draw of `below` in decimal.
    fn push_draw(&mut self, below: u64) -> Result<(), NoMemory>
        requires { 0 < below }
        ensures text { OnOk result
            (self.new.text.items ≡ self.old.text.items ++ decimal (draw_of self.old.number below)) }
        ensures number { OnOk result (self.new.number ≡ next_number self.old.number) }
    {
        let mut buffer = Buffer::new();
        let number = self.draw(below);
        self.push(buffer.format(number).as_bytes())
    }

    /// A draw of `below`: a number under it.
    #[tactic(auto, unfolding(crate::specs::Draws::next_number, crate::specs::Draws::draw_of))]
    fn draw(&mut self, below: u64) -> u64
        requires { 0 < below }
        ensures value { result ≡ draw_of self.old.number below }
        ensures number { self.new.number ≡ next_number self.old.number }
        ensures text { self.new.text ≡ self.old.text }
    {
        self.number = self.number.wrapping_mul(MULTIPLIER).wrapping_add(INCREMENT);
        (self.number >> 33) % below
    }

    /// Appends the flow.
    pub fn push_flow(&mut self) -> Result<(), NoMemory>
        ensures text { OnOk result
            (self.new.text.items ≡ self.old.text.items ++ (flow_line ++ codes "\n")) }
        ensures number { self.new.number ≡ self.old.number }
    {
        self.push(br#"{"flow":"scan","inputs":2,"nodes":["#)?;
        self.push(br#"{"op":"clean","t":900,"from":[{"i":0}]},"#)?;
        self.push(br#"{"op":"convolve","kernel":[[0,1,0],[1,1,1],[0,1,0]],"from":[{"n":0}]},"#)?;
        self.push(br#"{"op":"regions","t":2500,"from":[{"n":1}]},"#)?;
        self.push(br#"{"op":"block","fold":"max","h":2,"w":2,"from":[{"n":2}]},"#)?;
        self.push(br#"{"op":"clip","lo":0,"hi":15,"from":[{"n":0}]},"#)?;
        self.push(br#"{"op":"lookup","from":[{"n":4},{"i":1}]}"#)?;
        self.push_line(b"]}")
    }

    /// Appends the choices of strategies.
    #[tactic(auto, unfolding(crate::specs::Session::strategy_lines))]
    pub fn push_strategies(&mut self) -> Result<(), NoMemory>
        ensures text { OnOk result
            (self.new.text.items ≡ self.old.text.items ++ text_of_lines strategy_lines) }
        ensures number { self.new.number ≡ self.old.number }
    {
        self.push_line(br#"{"strategy":"scan","node":0,"list":["comp_one"]}"#)?;
        self.push_line(br#"{"strategy":"scan","node":1,"list":["full_many_b","full_one_f"]}"#)?;
        self.push_line(br#"{"strategy":"scan","node":2,"list":["pay_many"]}"#)?;
        self.push_line(br#"{"strategy":"scan","node":5,"list":["pay_one"]}"#)
    }

    /// Appends the start of the flow.
    #[tactic(auto, unfolding(crate::specs::Session::start_line))]
    pub fn push_start(&mut self) -> Result<(), NoMemory>
        ensures text { OnOk result
            (self.new.text.items ≡ self.old.text.items ++ (start_line ++ codes "\n")) }
        ensures number { self.new.number ≡ self.old.number }
    {
        self.push_line(br#"{"start":"scan","base":[["img",1],["tab",1]]}"#)
    }

    /// Appends so many triples of asks.
    pub fn push_triples(&mut self, count: u32, side: u32) -> Result<(), NoMemory>
        requires { 0 < side }
        ensures text { OnOk result (self.new.text.items
            ≡ self.old.text.items ++ text_of_lines (triples count side self.old.number)) }
        ensures number { OnOk result (self.new.number ≡ number_after self.old.number (count * 6)) }
    {
        for _done in 0..count {
            self.push_triple(side)?;
        }
        Ok(())
    }

    /// Appends three asks of an array of this side.
    fn push_triple(&mut self, side: u32) -> Result<(), NoMemory>
        requires { 0 < side }
        ensures text { OnOk result (self.new.text.items
            ≡ self.old.text.items ++ text_of_lines (triple side self.old.number)) }
        ensures number { OnOk result (self.new.number ≡ number_after self.old.number 6) }
    {
        let half = u64::from(side.div_ceil(2));
        let side = u64::from(side);
        self.push_ask(br#""dir":"back","path":[[3,0],[2,0],[1,0],[0,0]]"#, half)?;
        self.push_ask(br#""dir":"forward","path":[[0,0],[1,0],[2,0],[3,0]]"#, side)?;
        self.push_ask(br#""dir":"back","path":[[5,1]]"#, side)
    }

    /// Appends a line that asks this way of the cell at two draws of `below`.
    #[tactic(auto, unfolding(crate::specs::Session::ask_line))]
    fn push_ask(&mut self, way: &[u8], below: u64) -> Result<(), NoMemory>
        requires { 0 < below }
        ensures text { OnOk result (self.new.text.items ≡ self.old.text.items
            ++ (ask_line way.now self.old.number below ++ codes "\n")) }
        ensures number { OnOk result (self.new.number ≡ number_after self.old.number 2) }
    {
        self.push(br#"{"ask":1,"#)?;
        self.push(way)?;
        self.push(br#","cells":"#)?;
        self.push_rows(1, 2, below)?;
        self.push_line(b"}")
    }

    /// Appends the await of the version that was started.
    #[tactic(auto, unfolding(crate::specs::Session::await_line))]
    pub fn push_await(&mut self) -> Result<(), NoMemory>
        ensures text { OnOk result
            (self.new.text.items ≡ self.old.text.items ++ (await_line ++ codes "\n")) }
        ensures number { self.new.number ≡ self.old.number }
    {
        self.push_line(br#"{"await":1}"#)
    }

    /// Appends a line and its newline.
    pub fn push_line(&mut self, line: &[u8]) -> Result<(), NoMemory>
        ensures text { OnOk result
            (self.new.text.items ≡ self.old.text.items ++ (line.now ++ codes "\n")) }
        ensures number { self.new.number ≡ self.old.number }
    {
        self.push(line)?;
        self.push(b"\n")
    }

    /// Appends bytes as they are.
    fn push(&mut self, bytes: &[u8]) -> Result<(), NoMemory>
        ensures text { OnOk result (self.new.text.items ≡ self.old.text.items ++ bytes.now) }
        ensures number { self.new.number ≡ self.old.number }
    {
        self.text.extend_from_slice(bytes)?;
        Ok(())
    }
}
