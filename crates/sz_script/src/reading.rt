//! Reading one line as a command.

ghost use Rattle.std.specs.Prelude.{◌≡◌, ◌⊎◌};
ghost use Rattle.sz_script.specs.Terms.{Some, None, Err, IfOk, IfErr, view, json_of, reading};
ghost use Rattle.sz_script.specs.Terms.{Reads, Refused, NoJson};

use crate::command::{Command, LineFault};
use crate::forms;
use crate::refusal::Refusal;
use serde_json::Value;
use std::alloc::Global;

/// The most bytes that a line may have.
pub const LINE_LIMIT: usize = 33_554_432;

/// The command of a line, or the first rule that refuses it: it is too long, no JSON, of no form,
/// names something by what is no name, has bad cells, has too many of them, or its flow has a
/// fault. Takes time in proportion to the line.
pub fn read_line(alloc: Global, line: &[u8]) -> Result<Command, LineFault>
    ensures { Reads (reading line.now) result }
{
    if line.len() > LINE_LIMIT {
        return Err(LineFault::Refused(Refusal::TooLong));
    }
    let value = value_of_line(alloc, line)?;
    forms::command_of(alloc, &value)
}

/// The value of a line that is JSON.
fn value_of_line(alloc: Global, line: &[u8]) -> Result<Value, LineFault>
    ensures ok { IfOk result (λ v. json_of line.now ≡ Some (view v)) }
    ensures other { IfErr result (λ e. (e ≡ LineFault.NoMemory)
        ⊎ (e ≡ LineFault.Refused Refusal.NoJson)) }
    ensures json { result ≡ Err (LineFault.Refused Refusal.NoJson) → json_of line.now ≡ None }
{
    match Value::from_slice(alloc, line) {
        Ok(value) => Ok(value),
        Err(e) => {
            if e.is_memory() {
                Err(LineFault::NoMemory)
            } else {
                Err(LineFault::Refused(Refusal::NoJson))
            }
        }
    }
}
