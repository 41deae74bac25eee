//! The rule for a pair of accesses (after MPI 3.1, section 11.7).
ghost use Rattle.std.specs.Prelude.{◌≡◌};
ghost use Rattle.call_rules.specs.Sameness.{is_same_dtype, is_same_op};
ghost use Rattle.call_rules.specs.Transfers.{is_no_op};
ghost use Rattle.rank_rules.specs.Ranges.{do_overlap};
ghost use Rattle.order_rules.specs.Roles.{role_of};
ghost use Rattle.order_rules.specs.Rules.{accumulation_of, are_excepted, bytes_reached, may_combine, rma_rule};
ghost use Rattle.order_rules.specs.Rules.{rule_for, rule_if, store_rule};
ghost use Rattle.order_rules.specs.Rules.{forbidden_kind as rule_of_pair};
ghost use Rattle.rma_rules.specs.Same.{pair_by, role_by};

use rma_types::{Access, Dtype, Kind, Model, Op, Rule};

/// What an access is to the rules: an RMA update, an RMA read, a store or a load (MPI 3.1, sections 11.3 and 11.7).
#[derive(Clone, Copy, Debug, PartialEq, Eq)]
pub enum Part {
    Update,
    Read,
    Store,
    Load,
}

/// The part of an access of this kind. An accumulate with `no_op` is a read.
pub fn part_of(kind: Kind) -> Part
    ensures { role_by result ≡ role_of kind }
{
    match kind {
        Kind::Get => Part::Read,
        Kind::Put | Kind::Cas { dtype: _ } => Part::Update,
        Kind::Acc {
            op: Op::NoOp,
            dtype: _,
        } => Part::Read,
        Kind::Acc { op: _, dtype: _ } => Part::Update,
        Kind::Load => Part::Load,
        Kind::Store => Part::Store,
    }
}

fn is_same_datatype(a: Dtype, b: Dtype) -> bool
    ensures { result ≡ is_same_dtype a b }
{
    a == b
}

fn is_same_operation(a: Op, b: Op) -> bool
    ensures { result ≡ is_same_op a b }
{
    a == b
}

fn is_nothing(op: Op) -> bool
    ensures { result ≡ is_no_op op }
{
    op == Op::NoOp
}

/// The datatype of an accumulate or a cas, and the operation; a cas has none.
fn accumulation(kind: Kind) -> Option<(Dtype, Option<Op>)>
    ensures { result ≡ accumulation_of kind }
{
    match kind {
        Kind::Acc { op, dtype } => Some((dtype, Some(op))),
        Kind::Cas { dtype } => Some((dtype, None)),
        Kind::Get | Kind::Put | Kind::Load | Kind::Store => None,
    }
}

/// Whether two operations of one datatype may overlap; that of a cas is none.
fn do_combine(a: Option<Op>, b: Option<Op>, one_origin: bool) -> bool
    ensures { result ≡ may_combine a b one_origin }
{
    match (a, b) {
        (Some(a), Some(b)) => is_same_operation(a, b)
            || is_nothing(a)
            || is_nothing(b)
            || one_origin,
        (None, _) | (_, None) => true,
    }
}

/// Whether both are accumulates or cas of one datatype on one window, which may overlap.
fn are_alike(a: &Access, b: &Access, one_origin: bool) -> bool
    ensures { result ≡ are_excepted a.now b.now one_origin }
{
    if a.window != b.window {
        return false;
    }
    match (accumulation(a.kind), accumulation(b.kind)) {
        (Some((first, a)), Some((second, b))) => is_same_datatype(first, second)
            && do_combine(a, b, one_origin),
        (None, _) | (_, None) => false,
    }
}

/// Whether the two accesses reach a common byte.
fn do_meet(a: &Access, b: &Access) -> bool
    ensures { result ≡ do_overlap (bytes_reached a.now) (bytes_reached b.now) }
{
    let a_end = u64::from(a.lo) + u64::from(a.len);
    let b_end = u64::from(b.lo) + u64::from(b.len);
    0 < a.len && 0 < b.len && u64::from(a.lo) < b_end && u64::from(b.lo) < a_end
}

/// What a rule asks of two accesses beside their parts.
#[derive(Clone, Copy, Debug)]
struct Asked {
    model: Model,
    overlaps: bool,
    on_one_window: bool,
    is_excepted: bool,
}

/// The rule for two RMA accesses.
fn between_rma(pair: Asked) -> Option<Rule>
    ensures { result ≡ rma_rule (pair_by pair) }
{
    if pair.overlaps && !pair.is_excepted {
        Some(Rule::S2)
    } else {
        None
    }
}

/// The rule for a store and an RMA update.
fn for_store(pair: Asked) -> Option<Rule>
    ensures { result ≡ store_rule (pair_by pair) }
{
    if pair.overlaps {
        Some(Rule::S1)
    } else if pair.on_one_window && pair.model == Model::Separate {
        Some(Rule::S3)
    } else {
        None
    }
}

fn where_bytes_meet(pair: Asked, rule: Rule) -> Option<Rule>
    ensures { result ≡ rule_if pair.overlaps rule }
{
    if pair.overlaps { Some(rule) } else { None }
}

/// The rule for two accesses by their parts.
fn rule(pair: Asked, a: Part, b: Part) -> Option<Rule>
    ensures { result ≡ rule_for (pair_by pair) (role_by a) (role_by b) }
{
    match (a, b) {
        (Part::Update, Part::Update) => between_rma(pair),
        (Part::Update, Part::Read) | (Part::Read, Part::Update) => between_rma(pair),
        (Part::Update, Part::Store) | (Part::Store, Part::Update) => for_store(pair),
        (Part::Update, Part::Load) | (Part::Load, Part::Update) => where_bytes_meet(pair, Rule::S1),
        (Part::Read, Part::Store) | (Part::Store, Part::Read) => where_bytes_meet(pair, Rule::S2),
        (Part::Read, Part::Read | Part::Load) => None,
        (Part::Store, Part::Store | Part::Load) => None,
        (Part::Load, Part::Read | Part::Store | Part::Load) => None,
    }
}

/// The rule that forbids two accesses of these origins, where neither is ordered before the other: at one target,
/// each of at least one byte (after MPI 3.1, section 11.7, rules S1 to S3). It takes no memory.
pub fn forbidden_kind(
    a: &Access,
    origin_a: u8,
    b: &Access,
    origin_b: u8,
    model: Model,
) -> Option<Rule>
    ensures { result ≡ rule_of_pair a.now origin_a b.now origin_b model }
{
    if a.target != b.target || a.len == 0 || b.len == 0 {
        return None;
    }
    let pair = Asked {
        model,
        overlaps: do_meet(a, b),
        on_one_window: a.window == b.window,
        is_excepted: are_alike(a, b, origin_a == origin_b),
    };
    rule(pair, part_of(a.kind), part_of(b.kind))
}
