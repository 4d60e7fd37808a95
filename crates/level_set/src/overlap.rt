// The tables of a level that overlap some of the level before it.
ghost use Rattle.std.specs.Prelude.{◌≡◌, ◌≤◌, true, not, filter, length};
ghost use Rattle.std.specs.List.{prefix_len, slice_range};
ghost use Rattle.level_set.specs.Choices.{ArePlacesWithin, begin_before_end, end_behind_beginning, is_overlapped, rise};

use crate::home::Home;

/// Places in a list: from this one up to but without that one.
#[derive(Clone, Copy)]
pub(crate) struct Places {
    pub from: usize,
    pub to: usize,
}

/// Does the table end before each of these begins?
fn ends_before(chosen: &[Home], home: &Home) -> bool
    ensures { result ≡ not (begin_before_end chosen.now home.now) }
{
    let end = home.desc.greatest.bytes();
    for other in chosen {
        if other.desc.least.bytes().cmp(end).is_le() {
            return false;
        }
    }
    true
}

/// Does one of these end at or behind the table's beginning?
fn is_reached(chosen: &[Home], home: &Home) -> bool
    ensures { result ≡ end_behind_beginning chosen.now home.now }
{
    let beginning = home.desc.least.bytes();
    for other in chosen {
        if beginning.cmp(other.desc.greatest.bytes()).is_le() {
            return true;
        }
    }
    false
}

/// How many in front end before each of the chosen ones begins.
fn passed(chosen: &[Home], homes: &[Home]) -> usize
    requires { rise homes.now ≡ true }
    ensures count { result ≡ prefix_len (λ t. not (begin_before_end chosen.now t)) homes.now }
    ensures within { result ≤ length homes.now }
{
    homes.partition_point(|home| ends_before(chosen, home))
}

/// How many in front begin before one of the chosen ones ends, or there.
fn reached(chosen: &[Home], homes: &[Home]) -> usize
    requires { rise homes.now ≡ true }
    ensures count { result ≡ prefix_len (end_behind_beginning chosen.now) homes.now }
    ensures within { result ≤ length homes.now }
{
    homes.partition_point(|home| is_reached(chosen, home))
}

/// The places of those of a level below level 0 that overlap the least range which covers these. The level is searched by
/// halves, and each step asks the chosen ones.
pub(crate) fn overlap(chosen: &[Home], next: &[Home]) -> Places
    requires { rise next.now ≡ true }
    ensures places { ArePlacesWithin result.from result.to next.now }
    ensures overlapped { slice_range next.now result.from result.to ≡ filter (is_overlapped chosen.now) next.now }
{
    let from = passed(chosen, next);
    let (_, behind) = next.split_at(from);
    let rest = behind.len() - reached(chosen, behind);
    Places {
        from,
        to: next.len() - rest,
    }
}
