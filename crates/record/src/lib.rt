// Tables of records: one search and one count for every kind of record. They go from the front,
// since the first in a table came first.
#![tactic(auto)]

ghost use Rattle.std.specs.Prelude.{◌≡◌, ℕ, ◌<◌, ◌≤◌, Bool, ◌&&◌, length, IfSome, vec_len, vec_capacity, find, position, nat_le, ◌==◌};
ghost use Rattle.fields.specs.Values.{Identity as Party};
ghost use Rattle.record.specs.Search.{Computes, put_first, drop_first, count_of};

use fields::Identity;

// A kind of record of which one party may have only so many: each kind has a limit of its own.
pub trait Record {
    ghost LIMIT: { ℕ };

    const LIMIT: usize;

    // The party whose limit it is.
    ghost owned: { Self → Party };

    // The party whose limit it is.
    fn owner(&self) -> Identity
        ensures { result ≡ owned self.now };
}

// The place of the first record that passes.
pub fn position<R, F: Fn(&R) -> bool>(records: &[R], test: F) -> Option<usize>
    requires { F.IsAlwaysCallable test }
    ensures place { (p : R → Bool) → Computes F.Fn test p → result ≡ position p records.now }
    ensures within { IfSome result (λ i. i < length records.now) }
{
    records.iter().position(test)
}

// The first record that passes.
#[tactic(auto, using(std::proofs::lemmas::List::Folds::find_at, std::proofs::lemmas::Option::gets))]
pub fn first<R: Copy, F: Fn(&R) -> bool>(records: &[R], test: F) -> Option<R>
    requires { F.IsAlwaysCallable test }
    ensures { (p : R → Bool) → Computes F.Fn test p → result ≡ find p records.now }
{
    position(records, test).map(|i| records[i])
}

// Puts a record in the place of the first that passes. The capacity is as it was: no memory may be had.
pub fn put_first<R: Copy, F: Fn(&R) -> bool>(records: &mut Vec<R>, test: F, new: R)
    requires { F.IsAlwaysCallable test }
    ensures items { (p : R → Bool) → Computes F.Fn test p → records.new.items ≡ put_first p new records.old.items }
    ensures len { vec_len records.new ≡ vec_len records.old }
    ensures capacity { vec_capacity records.new ≡ vec_capacity records.old }
{
    if let Some(i) = position(records, test) {
        records[i] = new;
    }
}

// Erases the first record that passes; those after it keep their order. No memory is had: the
// capacity stays.
pub fn erase_first<R: Copy, F: Fn(&R) -> bool>(records: &mut Vec<R>, test: F)
    requires { F.IsAlwaysCallable test }
    ensures items { (p : R → Bool) → Computes F.Fn test p → records.new.items ≡ drop_first p records.old.items }
    ensures len { vec_len records.new ≤ vec_len records.old }
    ensures capacity { vec_capacity records.new ≡ vec_capacity records.old }
{
    if let Some(i) = position(records, test) {
        let _ = records.remove(i);
    }
}

// Whether the record is the party's and passes.
fn is_counted<R: Record, F: Fn(&R) -> bool>(item: &R, party: Identity, counted: &F) -> bool
    requires { F.IsAlwaysCallable counted.now }
    ensures { (p : R → Bool) → Computes F.Fn counted.now p → result ≡ ((R.Record.owned item.now).bits == party.bits && p item.now) }
{
    item.owner() == party && counted(item)
}

// How many records of the party pass. A loop, since `filter` and `count` take nearly twice as long.
pub fn count<R: Record, F: Fn(&R) -> bool>(records: &[R], party: Identity, counted: F) -> usize
    requires { F.IsAlwaysCallable counted }
    ensures { (p : R → Bool) → Computes F.Fn counted p → result ≡ count_of R.Record.owned p party records.now }
{
    let mut passing = 0;
    for item in records {
        if is_counted(item, party, &counted) {
            passing += 1;
        }
    }
    passing
}

// Whether the party has as many records as it may have, of those that pass. What counts is a test,
// since it may depend on more than the record, as on the clock.
pub fn at_limit<R: Record, F: Fn(&R) -> bool>(records: &[R], party: Identity, counted: F) -> bool
    requires { F.IsAlwaysCallable counted }
    ensures { (p : R → Bool) → Computes F.Fn counted p → result ≡ nat_le R.Record.LIMIT (count_of R.Record.owned p party records.now) }
{
    count(records, party, counted) >= R::LIMIT
}
