//! The refusals of a call for lack of a descriptor or of rights.
ghost use Rattle.std.specs.Prelude.{◌≡◌, [], ◌∷◌, None, Some, if◌then◌else◌};
ghost use Rattle.abi_base.specs.declared.errno.Errno.TheVariants.{Badf};
ghost use Rattle.kernel_model.specs.Calls.{refusal};
ghost use Rattle.kernel_model.specs.Families.WaitCalls.{fds_of, wait_rows};
ghost use Rattle.kernel_model.specs.Need as need;
ghost use Rattle.kernel_model.specs.Need.{some_absent, lack_at, has_instead, lack_base};
ghost use Rattle.kernel_model.specs.Reply as reply;
ghost use Rattle.right_rules.specs.Needs.{named_in, rows_in};

use crate::needs::{Needs, needs_of, wait_row};
use crate::replies::refused;
use abi_types::{Call, Denial, Descriptor, Errno, Needed, Reply, Rights, Subscription};
use fd_table::FdTable;

// Whether one of these descriptors is absent.
fn is_one_absent(table: &FdTable, fds: &[u32]) -> bool
    ensures { result ≡ some_absent table.now fds.now }
{
    for fd in fds {
        if !table.contains(*fd) {
            return true;
        }
    }
    false
}

// Whether the descriptor has rights that stand for the base rights that are needed.
fn has_instead(held: &Descriptor, row: &Needed) -> bool
    ensures { result ≡ has_instead held.now row.now }
{
    row.instead.0 != 0 && held.base.contains(row.instead)
}

// The base rights that are needed and that a descriptor lacks.
fn lack_base(held: &Descriptor, row: &Needed) -> Rights
    ensures { result ≡ lack_base held.now row.now }
{
    if has_instead(held, row) {
        Rights::NONE
    } else {
        row.base.minus(held.base)
    }
}

// Exactly the rights that a descriptor lacks of those needed, if it lacks any.
fn lack_at(held: &Descriptor, row: &Needed) -> Option<Denial>
    ensures { result ≡ lack_at (Some held.now) row.now }
{
    let base = lack_base(held, row);
    let inheriting = row.inheriting.minus(held.inheriting);
    if base.0 == 0 && inheriting.0 == 0 {
        return None;
    }
    Some(Denial::Missing {
        fd: row.fd,
        base,
        inheriting,
    })
}

// The denial that came before, or else that of this descriptor, if it lacks a right.
fn either_lack(before: Option<Denial>, held: &Descriptor, row: &Needed) -> Option<Denial>
    ensures { result ≡ need.either_lack before (lack_at (Some held.now) row.now) }
{
    before.or(lack_at(held, row))
}

// The refusal by a denial, if there is one.
fn denied_by(lack: Option<Denial>) -> Option<Reply>
    ensures { result ≡ need.denied_by lack }
{
    let denial = lack?;
    Some(Reply {
        denial: Some(denial),
        ..refused(Errno::Notcapable)
    })
}

// The refusal where one of the descriptors is absent, and no right is needed of them.
fn named_refusal(is_absent: bool) -> Option<Reply>
    ensures { result ≡ (if is_absent then Some (reply.refused Badf) else None) }
{
    if is_absent {
        Some(refused(Errno::Badf))
    } else {
        None
    }
}

// The refusal for lack of a row's descriptor or of its rights.
fn row_refusal(table: &FdTable, row: &Needed) -> Option<Reply>
    ensures { result ≡ need.refusal table.now (row.now.fd ∷ []) (row.now ∷ []) }
{
    match table.get(row.fd) {
        Some(held) => denied_by(lack_at(held, row)),
        None => Some(refused(Errno::Badf)),
    }
}

// The refusal for lack of one of two rows' descriptors, and where both are there for lack of rights.
fn two_refusal(table: &FdTable, first: &Needed, second: &Needed) -> Option<Reply>
    ensures { result ≡ need.refusal table.now (first.now.fd ∷ second.now.fd ∷ []) (first.now ∷ second.now ∷ []) }
{
    let (Some(one), Some(other)) = (table.get(first.fd), table.get(second.fd)) else {
        return Some(refused(Errno::Badf));
    };
    denied_by(either_lack(lack_at(one, first), other, second))
}

// The refusal for lack of a row's descriptor or of another one, and where all are there for lack of the row's rights.
fn listed_refusal(table: &FdTable, row: &Needed, rest: &[u32]) -> Option<Reply>
    ensures { result ≡ need.refusal table.now (row.now.fd ∷ rest.now) (row.now ∷ []) }
{
    if is_one_absent(table, rest) {
        return Some(refused(Errno::Badf));
    }
    row_refusal(table, row)
}

// The refusal for lack of one of the descriptors that are waited for, and where all are there for the first lack of a right.
fn waited_refusal(table: &FdTable, subscriptions: &[Subscription]) -> Option<Reply>
    ensures { result ≡ need.refusal table.now (fds_of (wait_rows subscriptions.now)) (wait_rows subscriptions.now) }
{
    let mut lack = None;
    for subscription in subscriptions {
        if let Some(row) = wait_row(&subscription.what) {
            let Some(held) = table.get(row.fd) else {
                return Some(refused(Errno::Badf));
            };
            lack = either_lack(lack, held, &row);
        }
    }
    denied_by(lack)
}

// The refusal for lack of what is needed.
fn refusal_by(table: &FdTable, needs: Needs<'_>) -> Option<Reply>
    ensures { result ≡ need.refusal table.now (named_in needs.entry) (rows_in needs.entry) }
{
    match needs {
        Needs::Nothing => None,
        Needs::Named(fd) => named_refusal(!table.contains(fd)),
        Needs::NamedTwo(first, second) => {
            named_refusal(!table.contains(first) || !table.contains(second))
        }
        Needs::One(row) => row_refusal(table, &row),
        Needs::Two(first, second) => two_refusal(table, &first, &second),
        Needs::OneAndNamed(row, rest) => listed_refusal(table, &row, rest),
        Needs::Waited(subscriptions) => waited_refusal(table, subscriptions),
    }
}

/// The refusal of a call by its process's table: for lack of a descriptor that it names, and where all are there for lack
/// of rights.
pub fn refusal(table: &FdTable, call: &Call) -> Option<Reply>
    ensures { result ≡ refusal table.now call.now }
{
    refusal_by(table, needs_of(call))
}
