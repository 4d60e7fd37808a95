ghost use Rattle.std.specs.Prelude.{◌≡◌, Some};
ghost use Rattle.std.specs.Ordering.{eq_by_cmp};
ghost use Rattle.std.specs.Cmp.{on_total, eq_by_cmp_equiv, partial_equiv_from_equiv, po};
ghost use Rattle.std.proofs.Common.{refl};
ghost use Rattle.merge_rows.specs.Heads.{head_cmp, IsHead};
ghost use Rattle.merge_rows.specs.HeadLaws.{head_total, IsHead-prop};

use crate::cursor::Upcoming;
use kv_base::Row;
use std::cmp::Ordering;

/// A cursor whose next row was read. There is none exactly where the cursor is at its end.
#[derive(Drop)]
pub(crate) struct Head<C: Upcoming> {
    pub(crate) row: Option<Row>,
    pub(crate) cursor: C,
    pub(crate) ghost order: { IsHead row (C.rows cursor) } by { IsHead-prop row (C.rows cursor) },
}

/// The one whose row stands in front is the greater one; a cursor at its end is below all others.
fn head_order(row: &Option<Row>, other: &Option<Row>) -> Ordering
    ensures { result ≡ head_cmp row.now other.now }
{
    match (row, other) {
        (None, None) => Ordering::Equal,
        (None, Some(_)) => Ordering::Less,
        (Some(_), None) => Ordering::Greater,
        (Some(row), Some(other)) => {
            let keys = other.raw.bytes().cmp(row.raw.bytes());
            keys.then(row.seq.cmp(&other.seq))
        }
    }
}

impl<C: Upcoming> PartialEq for Head<C> {
    ghost eq = { λ x y. eq_by_cmp head_cmp x.row y.row };

    ghost laws = { partial_equiv_from_equiv (eq_by_cmp_equiv (on_total (λ h. h.row) head_total)) };

    fn eq(&self, other: &Head<C>) -> bool {
        head_order(&self.row, &other.row).is_eq()
    }
}

impl<C: Upcoming> Eq for Head<C> {
    ghost laws = { eq_by_cmp_equiv (on_total (λ h. h.row) head_total) };
}

impl<C: Upcoming> PartialOrd for Head<C> {
    ghost partial_cmp = { λ x y. Some (head_cmp x.row y.row) };

    ghost laws = { po (on_total (λ h. h.row) head_total) (λ x y. refl) };

    fn partial_cmp(&self, other: &Head<C>) -> Option<Ordering> {
        Some(head_order(&self.row, &other.row))
    }
}

impl<C: Upcoming> Ord for Head<C> {
    ghost cmp = { λ x y. head_cmp x.row y.row };

    ghost total = { on_total (λ h. h.row) head_total };

    ghost matches_partial_cmp = { λ x y. refl };

    ghost matches_eq = { λ x y. refl };

    fn cmp(&self, other: &Head<C>) -> Ordering {
        head_order(&self.row, &other.row)
    }
}
