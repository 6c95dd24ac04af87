//! What may stand in the first place of a compound (RFC 8881 sections 2.10.6.4 and 15.1.3).

ghost use Rattle.std.specs.Prelude.{◌≡◌, nat_lt, if◌then◌else◌, Some, None, MatchOption};
ghost use Rattle.nfs_xdr.specs.declared.status.Status.TheVariants.{NotOnlyOp};
ghost use Rattle.nfs_compound.specs.declared.op.Item.TheVariants.{Operation};
ghost use Rattle.nfs_compound.specs.declared.op.Op.TheVariants as Op;
ghost use Rattle.nfs_compound.specs.declared.session_args.Sequence as args;
ghost use Rattle.nfs_exec.specs.Step.Place.{place_fault};

use nfs_compound::{Item, Op, Sequence};
use nfs_xdr::Status;

/// The arguments of the SEQUENCE that an item is.
pub(crate) fn sequence_in<'i>(item: &'i Item<'_>) -> Option<&'i Sequence>
    ensures { MatchOption result ((s : args.Sequence) → item.now ≡ Operation (Op.Sequence s) → ⊥) (λ s. item.now ≡ Operation (Op.Sequence s.now)) }
{
    match item {
        Item::Operation(op) => match op {
            Op::Sequence(asked) => Some(asked),
            _ => None,
        },
        Item::Fault { .. } => None,
    }
}

/// Why an operation cannot stand in the first place, of so many declared: four operations stand alone outside a session,
/// and SEQUENCE begins a compound in one.
pub(crate) fn place_fault(op: &Op<'_>, declared: u32) -> Option<Status>
    ensures { result ≡ place_fault declared (Operation op.now) }
{
    match op {
        Op::ExchangeId(_) => crowded(declared),
        Op::CreateSession(_) => crowded(declared),
        Op::DestroySession { .. } => crowded(declared),
        Op::DestroyClientId { .. } => crowded(declared),
        Op::Sequence(_) => None,
        _ => Some(Status::OpNotInSession),
    }
}

/// Why an operation that stands alone cannot stand among so many.
fn crowded(declared: u32) -> Option<Status>
    ensures { result ≡ (if nat_lt 1 declared then Some NotOnlyOp else None) }
{
    (declared > 1).then_some(Status::NotOnlyOp)
}
