//! Nodes of a flow: a table of operators by their words, and each one's parameters.

ghost use Rattle.std.specs.Prelude.{◌≡◌, ◌∷◌};
ghost use Rattle.sz_script.specs.Terms.{codes, IfOk, view, at, fold_in, has_parameters, alone};
ghost use Rattle.sz_script.specs.Terms.{one_whole, clip_in, sides_in, slice_in, block_in};
ghost use Rattle.sz_script.specs.Terms.{fold_layers_in, convolve_in, operators, op_by, op_in};
ghost use Rattle.sz_script.specs.Terms.{source_in, node_in};

use crate::each::{Listed, each_at};
use crate::{fields, kernels, words};
use serde_json::Value;
use std::alloc::{AllocError, Global};
use sz_spec::{Fold, Node, Op, SourceList, SourceRef};

impl Listed for Node {
    ghost said = { node_in };

    /// {"op":WORD,"from":[SOURCE,..]} and the operator's parameters
    fn of_item(alloc: Global, value: &Value) -> Result<Option<Node>, AllocError> {
        let Some(op) = op_of(alloc, value)? else {
            return Ok(None);
        };
        let Some(from) = each_at(alloc, value, "from")? else {
            return Ok(None);
        };
        Ok(Some(Node {
            op,
            from: SourceList::of(from),
        }))
    }
}

impl Listed for SourceRef {
    ghost said = { source_in };

    fn of_item(_alloc: Global, value: &Value) -> Result<Option<SourceRef>, AllocError> {
        Ok(source_of(value))
    }
}

/// {"i":U} or {"n":U}
fn source_of(value: &Value) -> Option<SourceRef>
    ensures { result ≡ source_in (view value.now) }
{
    if fields::has_fields(value, &["i"]) {
        return match fields::number_at(value, "i") {
            Some(input) => Some(SourceRef::Input(input)),
            None => None,
        };
    }
    if !fields::has_fields(value, &["n"]) {
        return None;
    }
    match fields::number_at(value, "n") {
        Some(node) => Some(SourceRef::Node(node)),
        None => None,
    }
}

/// The operator of a node, by its word.
fn op_of(alloc: Global, value: &Value) -> Result<Option<Op>, AllocError>
    ensures { IfOk result (λ o. o ≡ op_in (view value.now)) }
{
    match fields::text_at(value, "op") {
        Some(word) => op_by(alloc, word, value),
        None => Ok(None),
    }
}

/// The table of operators: the operator of this word with the parameters of the node.
fn op_by(alloc: Global, word: &str, value: &Value) -> Result<Option<Op>, AllocError>
    ensures { IfOk result (λ o. o ≡ op_by operators word.now (view value.now)) }
{
    match word {
        "neg" => Ok(alone(value, Op::Neg)),
        "abs" => Ok(alone(value, Op::Abs)),
        "add" => Ok(alone(value, Op::Add)),
        "sub" => Ok(alone(value, Op::Sub)),
        "mul" => Ok(alone(value, Op::Mul)),
        "min" => Ok(alone(value, Op::Min)),
        "max" => Ok(alone(value, Op::Max)),
        "transpose" => Ok(alone(value, Op::Transpose)),
        "lookup" => Ok(alone(value, Op::Lookup)),
        "add_k" => Ok(one_whole(value, "k").map(|k| Op::AddK { k })),
        "mul_k" => Ok(one_whole(value, "k").map(|k| Op::MulK { k })),
        "regions" => Ok(one_whole(value, "t").map(|t| Op::Regions { t })),
        "clean" => Ok(one_whole(value, "t").map(|t| Op::Clean { t })),
        "clip" => Ok(clip_of(value)),
        "slice" => Ok(slice_of(value)),
        "block" => Ok(block_of(value)),
        "fold_layers" => Ok(fold_layers_of(value)),
        "convolve" => convolve_of(alloc, value),
        _ => Ok(None),
    }
}

/// An operator without parameters.
fn alone(value: &Value, op: Op) -> Option<Op>
    ensures { result ≡ alone op (view value.now) }
{
    if fields::has_fields(value, &["op", "from"]) {
        Some(op)
    } else {
        None
    }
}

/// The parameter of an operator that has one, a whole number.
fn one_whole(value: &Value, key: &str) -> Option<i64>
    ensures { result ≡ one_whole key.now (view value.now) }
{
    if fields::has_fields(value, &["op", "from", key]) {
        fields::whole_at(value, key)
    } else {
        None
    }
}

fn clip_of(value: &Value) -> Option<Op>
    ensures { result ≡ clip_in (view value.now) }
{
    if !fields::has_fields(value, &["op", "from", "lo", "hi"]) {
        return None;
    }
    let lo = fields::whole_at(value, "lo")?;
    let hi = fields::whole_at(value, "hi")?;
    Some(Op::Clip { lo, hi })
}

fn slice_of(value: &Value) -> Option<Op>
    ensures { result ≡ slice_in (view value.now) }
{
    if !fields::has_fields(value, &["op", "from", "r0", "c0", "h", "w"]) {
        return None;
    }
    let r0 = fields::number_at(value, "r0")?;
    let c0 = fields::number_at(value, "c0")?;
    let (h, w) = sides_of(value)?;
    Some(Op::Slice { r0, c0, h, w })
}

/// How high and how wide.
fn sides_of(value: &Value) -> Option<(u32, u32)>
    ensures { result ≡ sides_in (view value.now) }
{
    let h = fields::number_at(value, "h")?;
    let w = fields::number_at(value, "w")?;
    Some((h, w))
}

fn block_of(value: &Value) -> Option<Op>
    ensures { result ≡ block_in (view value.now) }
{
    if !fields::has_fields(value, &["op", "from", "fold", "h", "w"]) {
        return None;
    }
    let fold = fold_at(value, "fold")?;
    let (h, w) = sides_of(value)?;
    Some(Op::Block { fold, h, w })
}

fn fold_layers_of(value: &Value) -> Option<Op>
    ensures { result ≡ fold_layers_in (view value.now) }
{
    if !fields::has_fields(value, &["op", "from", "fold"]) {
        return None;
    }
    let fold = fold_at(value, "fold")?;
    Some(Op::FoldLayers { fold })
}

/// The fold of a field, by its word.
fn fold_at(value: &Value, key: &str) -> Option<Fold>
    ensures { result ≡ at fold_in key.now (view value.now) }
{
    words::fold_named(fields::text_at(value, key)?)
}

fn convolve_of(alloc: Global, value: &Value) -> Result<Option<Op>, AllocError>
    ensures { IfOk result (λ o. o ≡ convolve_in (view value.now)) }
{
    if !fields::has_fields(value, &["op", "from", "kernel"]) {
        return Ok(None);
    }
    let Some(rows) = fields::list_at(value, "kernel") else {
        return Ok(None);
    };
    let Some(kernel) = kernels::kernel_of(alloc, rows)? else {
        return Ok(None);
    };
    Ok(Some(Op::Convolve { kernel }))
}
