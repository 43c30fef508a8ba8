//! Values by number, sorted once.
ghost use Rattle.std.specs.Prelude.{◌≡◌, IfOk, nat_eq, slice_get};
ghost use Rattle.std.specs.Map.{lookup};
ghost use Rattle.std.specs.Option.{option_copied};
ghost use Rattle.std.specs.Ordering.{nat_cmp};
ghost use Rattle.kx_ordered.specs.Sorted.{EndsBelow, FindsAs, IsSorted};

use std::alloc::AllocError;
use std::marker::Model;

/// Values by numbers, which are sorted once, so that a number is found in the logarithm of how many there are; seen as
/// numbers and values in order. Of several values of a number the first counts.
#[derive(Drop)]
pub struct SortedNumbers<V: Drop> {
    entries: Vec<(u32, V)>,
}

impl<V: Drop> Model for SortedNumbers<V> {
    ghost use Rattle.std.specs.Prelude.{ℕ, List};
    ghost use Rattle.std.specs.Ordering.{nat_cmp};
    ghost use Rattle.kx_ordered.specs.Sorted.{IsSorted};

    ghost Value = { List (ℕ × V) };

    ghost view = { λ numbers. numbers.entries.items };

    ghost invariant = { λ numbers. IsSorted nat_cmp numbers.entries.items };
}

impl<V: Drop> SortedNumbers<V> {
    /// These numbers with their values.
    ///
    /// # Errors
    /// Where a growth is refused.
    pub fn of(entries: Vec<(u32, V)>) -> Result<SortedNumbers<V>, AllocError>
        ensures { IfOk result (FindsAs nat_eq entries.items) }
    {
        let mut entries = entries;
        entries.sort_by_key(|entry| entry.0)?;
        Ok(SortedNumbers { entries })
    }

    /// The value of a number.
    pub fn get(&self, number: u32) -> Option<&V>
        ensures { option_copied result ≡ lookup (nat_eq number) self.now }
    {
        let place = self.place(number);
        match self.entry(place) {
            None => None,
            Some(entry) => {
                if number == entry.0 {
                    Some(&entry.1)
                } else {
                    None
                }
            }
        }
    }

    /// Where the numbers below a number end.
    fn place(&self, number: u32) -> usize
        ensures point { EndsBelow nat_cmp number self.now result }
        ensures sorted { IsSorted nat_cmp self.now }
    {
        // Most numbers that are looked for stand before all.
        match self.entries.first() {
            Some(first) if number <= first.0 => 0,
            _ => self.entries.partition_point(|entry| entry.0 < number),
        }
    }

    /// The number and the value at a place.
    fn entry(&self, place: usize) -> Option<&(u32, V)>
        ensures { option_copied result ≡ slice_get self.now place }
    {
        self.entries.get(place)
    }
}
