// A row: at most N items, kept in place.
ghost use Rattle.std.specs.Prelude.{◌≡◌, ◌≤◌, length};

use std::alloc::AllocError;

// At most N items, one after another, and then cells that are not in use.
// It stands in place of the library's ArrayVec, which is not Copy. It has no model: a struct that holds a struct with
// one is not copied where it is passed by value and used again.
pub struct Row<T, const N: usize> {
    cells: [T; N],
    count: usize,
    ghost few: { count ≤ N },
    ghost wide: { length cells ≡ N },
}

// It clones each cell. A generic struct with ghost fields cannot derive this.
impl<T: Clone, const N: usize> Clone for Row<T, N> {
    ghost is_clone = { λ r s. ⟦<[T; N] as Clone>⟧.is_clone r.cells s.cells × (s.count ≡ r.count) };

    ghost is_infallible = { λ r. ⟦<[T; N] as Clone>⟧.is_infallible r.cells };

    fn clone(&self) -> Result<Self, AllocError> {
        Ok(Row {
            cells: self.cells.clone()?,
            count: self.count,
        })
    }
}

impl<T: Copy, const N: usize> Copy for Row<T, N> {}

impl<T: Copy, const N: usize> Row<T, N> {
    ghost use Rattle.std.specs.Prelude.{◌-◌, [], drop, replicate, slice_get, IfSome};
    ghost use Rattle.std.specs.List.{remove};
    ghost use Rattle.rows.specs.Rows.{items_of, items_made, fitting, insert_answer, after_insert};

    // A row of no items, with `blank` in its cells.
    pub fn new(blank: T) -> Self
        ensures no_items { items_of result ≡ [] }
        ensures blank { result.cells ≡ replicate N blank }
    {
        Row {
            cells: [blank; N],
            count: 0,
        }
    }

    // A row of these items, with `blank` in the other cells, if there are few enough.
    pub fn from_slice(blank: T, items: &[T]) -> Option<Self>
        ensures made { items_made result ≡ fitting N items.now }
        ensures blank_after { IfSome result (λ r. drop r.count r.cells ≡ replicate (N - r.count) blank) }
    {
        if items.len() > N {
            return None;
        }
        let mut cells = [blank; N];
        cells[..items.len()].copy_from_slice(items);
        Some(Row {
            cells,
            count: items.len(),
        })
    }

    // The items, in order.
    pub fn as_slice(&self) -> &[T]
        ensures items { result.now ≡ items_of self.now }
        ensures few { length result.now ≤ N }
    {
        &self.cells[..self.count]
    }

    // Puts in an item at index `at`, if there is room and `at` is not past the end. An `Option`, as of `checked_add`:
    // there is nothing to tell of why it was not done.
    #[tactic(auto, using(crate::proofs::Shifts::inserted_by_copy))]
    pub fn insert(&mut self, at: usize, item: T) -> Option<()>
        ensures done_or_not { result ≡ insert_answer N (items_of self.old) at }
        ensures items_after { items_of self.new ≡ after_insert N (items_of self.old) at item }
    {
        let count = self.count;
        if count >= N || at > count {
            return None;
        }
        self.cells.copy_within(at..count, at + 1);
        self.cells[at] = item;
        self.count = count + 1;
        Some(())
    }

    // Takes out the item at index `at`, if there is one.
    #[tactic(auto, using(crate::proofs::Shifts::removed_by_copy))]
    pub fn remove(&mut self, at: usize) -> Option<T>
        ensures item { result ≡ slice_get (items_of self.old) at }
        ensures items_after { items_of self.new ≡ remove (items_of self.old) at }
    {
        let count = self.count;
        let item = *self.cells[..count].get(at)?;
        self.cells.copy_within(at + 1..count, at);
        self.count = count - 1;
        Some(item)
    }
}

#[cfg(test)]
mod tests {
    use super::*;

    #[test]
    fn takes_as_many_items_as_fit(rt: HostRuntime) {
        let row: Option<Row<u8, 2>> = Row::from_slice(0, &[7, 8]);
        assert!(rt; row.is_some());
        let row: Option<Row<u8, 2>> = Row::from_slice(0, &[7, 8, 9]);
        assert!(rt; row.is_none());
    }

    #[test]
    fn puts_in_and_takes_out(rt: HostRuntime) {
        let mut row: Row<u8, 3> = Row::new(0);
        assert!(rt; row.insert(1, 5).is_none());
        assert!(rt; row.insert(0, 5).is_some());
        assert!(rt; row.insert(0, 4).is_some());
        assert!(rt; row.insert(1, 9).is_some());
        assert!(rt; row.insert(0, 1).is_none());
        assert!(rt; row.as_slice() == [4, 9, 5].as_slice());
        assert_eq!(rt; row.remove(1), Some(9));
        assert_eq!(rt; row.remove(2), None);
        assert!(rt; row.as_slice() == [4, 5].as_slice());
    }
}
