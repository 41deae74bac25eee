//! Accumulates that may overlap (after MPI 3.1, section 11.7).
ghost use Rattle.std.specs.Prelude.{◌≡◌};
ghost use Rattle.call_rules.specs.Sameness.{is_same_dtype, is_same_op};
ghost use Rattle.access_sweeps.specs.Labels.{do_stand as do_labels_stand, is_same_label, is_same_operation as are_one};
ghost use Rattle.access_sweeps.specs.Labels.{label_of as label_by};

use rma_types::{Access, Dtype, Kind, Op};

/// What two accumulates or cas have in common that may overlap: the window and the datatype, and where it counts the
/// operation. A cas has none.
#[derive(Clone, Copy, Debug)]
pub struct Label {
    pub window: u32,
    pub dtype: Dtype,
    pub op: Option<Op>,
}

/// The label of an accumulate or a cas, with its operation where that counts.
pub fn label_of(access: &Access, by_operation: bool) -> Option<Label>
    ensures { result ≡ label_by by_operation access.now }
{
    let window = access.window;
    match access.kind {
        Kind::Acc { op, dtype } => {
            let op = if by_operation { Some(op) } else { None };
            Some(Label { window, dtype, op })
        }
        Kind::Cas { dtype } => Some(Label {
            window,
            dtype,
            op: None,
        }),
        Kind::Get | Kind::Put | Kind::Load | Kind::Store => None,
    }
}

fn is_same_datatype(a: Dtype, b: Dtype) -> bool
    ensures { result ≡ is_same_dtype a b }
{
    a == b
}

fn is_one_operation(a: Op, b: Op) -> bool
    ensures { result ≡ is_same_op a b }
{
    a == b
}

fn is_same_operation(a: Option<Op>, b: Option<Op>) -> bool
    ensures { result ≡ are_one a b }
{
    match (a, b) {
        (None, None) => true,
        (Some(a), Some(b)) => is_one_operation(a, b),
        (None, Some(_)) | (Some(_), None) => false,
    }
}

fn is_same(a: Label, b: Label) -> bool
    ensures { result ≡ is_same_label a b }
{
    a.window == b.window && is_same_datatype(a.dtype, b.dtype) && is_same_operation(a.op, b.op)
}

/// Whether two accesses of these labels may overlap: both have one, and it is the same.
pub fn do_stand(a: Option<Label>, b: Option<Label>) -> bool
    ensures { result ≡ do_labels_stand a b }
{
    match (a, b) {
        (Some(a), Some(b)) => is_same(a, b),
        (None, _) | (_, None) => false,
    }
}
