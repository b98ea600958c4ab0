// The far answer: the least sum over an entry of each of two lists, and the table's value between their indexes.
ghost use Rattle.std.specs.Prelude.{◌≡◌, false, ◌*◌, ◌<◌, ◌≤◌, length};
ghost use Rattle.model.specs.Distance.{soonest};
ghost use Rattle.model.specs.Oracle.{no_walk, decoded, list_count, access_entry, access_list, table_broken};
ghost use Rattle.model.specs.Query.{answer, sum_by, far_distance};
ghost use Rattle.tables.specs.Premises.{HasList, ListedBelow, HasRow, InTwo, summed, sum_in, far_from};

use crate::lists::{entry_at, entry_index, entry_value, list_count};
use crate::sums::sum;
use codec::keys::{hops_of, seconds_of};
use codec::records::{NO_WALK, NUMBER_SIZE, VALUE_SIZE};
use model::{Answer, Kind};

// The sum for a row of the table and entry j of the list of e.
fn sum_with(access: &[u8], row: &[u8], e: usize, j: usize) -> u64
    requires { HasRow access.now e row.now × (j < list_count access.now e) }
    ensures { (summed result ≡ sum_in row.now (access_entry access.now e j)) × InTwo result }
{
    let column = entry_index(access, e, j);
    let at = entry_at(access, e, j) + NUMBER_SIZE;
    sum(row, VALUE_SIZE * column, access, at)
}

// The least sum for a row, over the entries of the list of e.
fn least_over(access: &[u8], row: &[u8], e: usize) -> u64
    requires { HasRow access.now e row.now }
    ensures { (summed result ≡ soonest (sum_in row.now) (access_list access.now e)) × InTwo result × (result ≤ no_walk) }
{
    let n = list_count(access, e);
    let mut least = NO_WALK;
    for j in 0..n {
        least = least.min(sum_with(access, row, e, j));
    }
    least
}

// The least sum for entry i of the list of s, over the entries of the list of e: the value of entry i is added to the least sum for its row.
fn least_from(t: usize, access: &[u8], table: &[u8], s: usize, i: usize, e: usize) -> u64
    requires { HasList t access.now s × (i < list_count access.now s) × HasList t access.now e × (table_broken t table.now ≡ false) }
    ensures { summed result ≡ soonest (sum_by table.now t (access_entry access.now s i)) (access_list access.now e) }
{
    let value = entry_value(access, s, i);
    let row = VALUE_SIZE * (entry_index(access, s, i) * t);
    value + least_over(access, &table[row..], e)
}

// The least sum over the entries of both lists.
fn far_key(t: usize, access: &[u8], table: &[u8], s: usize, e: usize) -> u64
    requires { HasList t access.now s × HasList t access.now e × (table_broken t table.now ≡ false) }
    ensures { (decoded result ≡ far_distance table.now t (access_list access.now s) (access_list access.now e))
        × (result ≤ no_walk) }
{
    let n = list_count(access, s);
    let mut least = NO_WALK;
    for i in 0..n {
        least = least.min(least_from(t, access, table, s, i, e));
    }
    least
}

// "Its pairs tried is the product of the two list lengths."
pub fn pairs_tried(access: &[u8], s: usize, e: usize) -> u32
    requires { ListedBelow access.now s × ListedBelow access.now e }
    ensures { result ≡ length (access_list access.now s) * length (access_list access.now e) }
{
    list_count(access, s) as u32 * list_count(access, e) as u32
}

// A time, or none for the key that means 'no walk'.
pub fn answer_of(kind: Kind, pairs: u32, k: u64) -> Answer
    requires { k ≤ no_walk }
    ensures { result ≡ answer kind pairs (decoded k) }
{
    if k == NO_WALK {
        return Answer::None { kind, pairs };
    }
    let seconds = seconds_of(k);
    let hops = hops_of(k);
    Answer::Time {
        seconds,
        hops,
        kind,
        pairs,
    }
}

pub fn far_answer(t: usize, access: &[u8], table: &[u8], s: usize, e: usize) -> Answer
    requires { HasList t access.now s × HasList t access.now e × (table_broken t table.now ≡ false) }
    ensures { result ≡ far_from t access.now table.now s e }
{
    let pairs = pairs_tried(access, s, e);
    answer_of(Kind::Far, pairs, far_key(t, access, table, s, e))
}
