// Lists of records that rise by their keys: checked once, then searched by halving.
ghost use Rattle.std.specs.Prelude.{◌≡◌, ℕ, ◌<◌, true, length, is_some, IfSome, ⊤, if◌then◌else◌, nat_le};
ghost use Rattle.faces.specs.Keys.{every, first, key_at, rising};

use crate::keyed::Keyed;
use std::alloc::AllocError;

pub struct Rising<'a, T: Keyed> {
    rows: &'a [T],
    ghost rises: { rising T.key_of rows.now ≡ true },
}

fn is_rising<T: Keyed>(rows: &[T]) -> bool
    ensures { result ≡ rising T.key_of rows.now }
{
    rows.is_sorted_by(|before, after| before.key() < after.key())
}

// By hand: `Clone` cannot be derived for a generic struct that has a ghost field.
impl<'a, T: Keyed> Clone for Rising<'a, T> {
    ghost is_clone = { λ x y. y ≡ x };

    ghost is_infallible = { λ _. ⊤ };

    fn clone(&self) -> Result<Rising<'a, T>, AllocError> {
        Ok(*self)
    }
}

impl<'a, T: Keyed> Copy for Rising<'a, T> {}

impl<'a, T: Keyed> Rising<'a, T> {
    // These rows, if each key is above the one before it.
    pub(crate) fn new(rows: &'a [T]) -> Option<Rising<'a, T>>
        ensures test { is_some result ≡ rising T.key_of rows.now }
        ensures rows { IfSome result (λ list. list.rows.now ≡ rows.now) }
    {
        if is_rising(rows) {
            Some(Rising { rows })
        } else {
            None
        }
    }

    pub(crate) fn all_sound(&self) -> bool
        ensures { result ≡ every T.soundness self.now.rows.now }
    {
        self.rows.iter().all(|row| row.is_sound())
    }

    // The only place that can have the key. The library's `partition_point` and `binary_search_by_key` branch on each
    // comparison and take 1.3 to 2 times as long.
    fn place_of(&self, wanted: u32) -> usize
        ensures { (k : ℕ) → k < length self.now.rows.now → key_at T.key_of self.now.rows.now k ≡ wanted → k ≡ result }
    {
        let mut low = 0;
        let mut size = self.rows.len();
        while size > 1 {
            let half = size / 2;
            low += half * reaches(self.rows[low + half].key(), wanted);
            size -= half;
        }
        low
    }
}

impl<'a, T: Keyed + Copy> Rising<'a, T> {
    // The record of a key.
    pub(crate) fn find(&self, wanted: u32) -> Option<T>
        ensures { result ≡ first T.key_of wanted self.now.rows.now }
    {
        let row = self.rows.get(self.place_of(wanted)).copied()?;
        (row.key() == wanted).then_some(row)
    }
}

// 1 where the key is at most the wanted one, and 0 where it is above: a sum in place of a branch.
fn reaches(key: u32, wanted: u32) -> usize
    ensures { result ≡ (if nat_le key wanted then 1 else 0) }
{
    ((wanted as u64 + 0x1_0000_0000 - key as u64) >> 32) as usize
}
