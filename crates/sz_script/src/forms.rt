//! The table of forms, with a file for those that speak of arrays, of flows, of versions, and for
//! those that ask.

mod arrays;
mod flows;
mod question;
mod versions;

ghost use Rattle.std.specs.Prelude.{◌≡◌};
ghost use Rattle.sz_script.specs.Terms.{view, reading_of_form, draft_of, Reads};

use crate::command::{Command, LineFault, NO_FORM};
use crate::fields::has_fields;
use serde_json::Value;
use std::alloc::Global;

/// The command that a value is, by the first form whose fields it has, or the rule that refuses it.
pub fn command_of(alloc: Global, value: &Value) -> Result<Command, LineFault>
    ensures { Reads (reading_of_form (draft_of (view value.now))) result }
{
    if has_fields(value, &["array", "cells"]) {
        return arrays::array(alloc, value);
    }
    if has_fields(value, &["csv", "text"]) {
        return arrays::csv(alloc, value);
    }
    if has_fields(value, &["layers", "cells"]) {
        return arrays::layered(alloc, value);
    }
    if has_fields(value, &["flow", "inputs", "nodes"]) {
        return flows::flow(alloc, value);
    }
    if has_fields(value, &["strategy", "node", "list"]) {
        return flows::strategy(alloc, value);
    }
    if has_fields(value, &["start", "base"]) {
        return flows::start(alloc, value);
    }
    if has_fields(value, &["plan", "base", "units", "back", "forward"]) {
        return flows::plan(alloc, value);
    }
    if has_fields(value, &["refresh", "input", "set"]) {
        return versions::refresh(alloc, value);
    }
    if has_fields(value, &["merge"]) {
        return versions::merge(value);
    }
    if has_fields(value, &["merged"]) {
        return versions::merged(value);
    }
    if has_fields(value, &["await"]) {
        return versions::awaiting(value);
    }
    if has_fields(value, &["ask", "dir", "path", "cells"]) {
        return question::ask(alloc, value);
    }
    if has_fields(value, &["explain", "dir", "path", "cells"]) {
        return question::explain(alloc, value);
    }
    if has_fields(value, &["show", "node"]) {
        return versions::show(value);
    }
    Err(NO_FORM)
}
