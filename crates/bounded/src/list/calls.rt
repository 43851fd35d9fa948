ghost use Rattle.std.specs.Prelude.{◌≡◌, ◌+◌, ◌<◌, ◌≤◌, [], ◌∷◌, ◌++◌, length, if◌then◌else◌, nat_lt, MatchOption};
ghost use Rattle.std.specs.Cmp.Lexicographic.{pointwise};
ghost use Rattle.bounded.specs.Held.{held};

use crate::list::Bounded;

impl<T: Copy, const N: usize> Bounded<T, N> {
    // An empty list; the filler stands in the unused places.
    pub fn new(filler: T) -> Self
        ensures none { held result ≡ [] }
        ensures count { result.used ≡ 0 }
    {
        Bounded {
            items: [filler; N],
            used: 0,
        }
    }

    // A list of these items, if there are places for them; the filler stands in the others.
    pub fn from_slice(items: &[T], filler: T) -> Option<Self>
        ensures value { MatchOption result (N < length items.now) (λ l. (length items.now ≤ N) × (held l ≡ items.now)) }
    {
        let used = items.len();
        if used > N {
            return None;
        }
        let mut places = [filler; N];
        places[..used].copy_from_slice(items);
        Some(Bounded {
            items: places,
            used,
        })
    }

    // Adds an item at the end; says whether there was a place for it.
    pub fn push(&mut self, item: T) -> bool
        ensures room { result ≡ nat_lt self.old.used N }
        ensures items { held self.new ≡ (if result then held self.old ++ item ∷ [] else held self.old) }
        ensures count { self.new.used ≡ (if result then self.old.used + 1 else self.old.used) }
    {
        if self.used < N {
            self.items[self.used] = item;
            self.used += 1;
            return true;
        }
        false
    }

    // How many items there are.
    pub fn len(&self) -> usize
        ensures value { result ≡ length (held self.now) }
    {
        self.as_slice().len()
    }

    // The items, first to last.
    pub fn as_slice(&self) -> &[T]
        ensures value { result.now ≡ held self.now }
    {
        &self.items[..self.used]
    }
}

impl<T: PartialEq + Copy, const N: usize> PartialEq for Bounded<T, N> {
    ghost use Rattle.std.specs.Cmp.{on_per};
    ghost use Rattle.std.specs.Cmp.Lexicographic.{lists_per};

    ghost eq = { λ v w. pointwise T.eq (held v) (held w) };

    ghost laws = { on_per held (lists_per T.laws) };

    // Whether the items are the same; what stands in unused places does not count.
    fn eq(&self, other: &Self) -> bool {
        self.as_slice() == other.as_slice()
    }
}

impl<T: Eq + Copy, const N: usize> Eq for Bounded<T, N> {
    ghost use Rattle.std.specs.Cmp.{on_equiv};
    ghost use Rattle.std.specs.Cmp.Lexicographic.{lists_equiv};

    ghost laws = { on_equiv held (lists_equiv T.Eq.laws) };
}
