//! The table of operators: which type of which crate is at work for an operator. It is looked into
//! once a call, and never once a cell.

/// Goes on with the operator's own type: `elementwise` and `mapped` with the mapping, `lookup` and
/// `clean` with what is at work over the inputs, and `regions` with the least high value.
macro_rules! choose {
    (
        $at:expr, $inputs:expr;
        elementwise $e:ident => $elementwise:expr;
        mapped $m:ident => $mapped:expr;
        lookup $l:ident => $lookup:expr;
        clean $c:ident => $clean:expr;
        regions $t:ident => $regions:expr
    ) => {
        match $at.op() {
            sz_spec::Op::Neg
            | sz_spec::Op::Abs
            | sz_spec::Op::AddK { .. }
            | sz_spec::Op::MulK { .. }
            | sz_spec::Op::Clip { .. }
            | sz_spec::Op::Add
            | sz_spec::Op::Sub
            | sz_spec::Op::Mul
            | sz_spec::Op::Min
            | sz_spec::Op::Max => {
                let $e = sz_ops_local::Elementwise { at: $at };
                $elementwise
            }
            sz_spec::Op::Block { fold, h, w } => {
                let $m = sz_ops_local::FoldBlocks {
                    at: $at,
                    fold: *fold,
                    h: *h,
                    w: *w,
                };
                $mapped
            }
            sz_spec::Op::Transpose => {
                let $m = sz_ops_move::Transposition { at: $at };
                $mapped
            }
            sz_spec::Op::Slice { r0, c0, h, w } => {
                let $m = sz_ops_move::Slicing {
                    at: $at,
                    r0: *r0,
                    c0: *c0,
                    h: *h,
                    w: *w,
                };
                $mapped
            }
            sz_spec::Op::FoldLayers { fold } => {
                let $m = sz_ops_move::LayerFold {
                    at: $at,
                    fold: *fold,
                };
                $mapped
            }
            sz_spec::Op::Convolve { kernel } => {
                let $m = sz_ops_window::Convolution { at: $at, kernel };
                $mapped
            }
            sz_spec::Op::Lookup => {
                let $l = sz_ops_move::Matching {
                    at: $at,
                    inputs: $inputs,
                };
                $lookup
            }
            sz_spec::Op::Clean { t } => {
                let $c = sz_ops_window::Cleaning {
                    at: $at,
                    inputs: $inputs,
                    t: *t,
                };
                $clean
            }
            sz_spec::Op::Regions { t } => {
                let $t = *t;
                $regions
            }
        }
    };
}

/// Goes on with what is at work, and for connected regions with the least high value.
macro_rules! at_work {
    ($at:expr, $inputs:expr; $work:ident => $body:expr; regions $t:ident => $regions:expr) => {
        choose!(
            $at, $inputs;
            elementwise of => {
                let $work = sz_frame::Mapped { of, inputs: $inputs };
                $body
            };
            mapped of => {
                let $work = sz_frame::Mapped { of, inputs: $inputs };
                $body
            };
            lookup $work => $body;
            clean $work => $body;
            regions $t => $regions
        )
    };
}

/// Goes on with the mapping of an operator that has one.
macro_rules! mapping {
    ($at:expr; $m:ident => $mapped:expr) => {
        mapping!($at; elementwise $m => $mapped; mapped $m => $mapped)
    };
    ($at:expr; elementwise $e:ident => $elementwise:expr; mapped $m:ident => $mapped:expr) => {
        choose!(
            $at, &[];
            elementwise $e => $elementwise;
            mapped $m => $mapped;
            lookup _lookup => unreachable!();
            clean _clean => unreachable!();
            regions _t => unreachable!()
        )
    };
}

pub(crate) use at_work;
pub(crate) use choose;
pub(crate) use mapping;
