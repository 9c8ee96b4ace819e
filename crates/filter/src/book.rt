ghost use Rattle.std.specs.Prelude.{◌≡◌, ◌<◌, ◌≤◌, [], ◌∷◌, ◌++◌, length};
ghost use Rattle.std.specs.List.{remove};

use kind::rule::Rule;

// The most rules that a book holds.
pub const BOOK_MAX: usize = 64;

// kept: an `ArrayVec` is not `Copy`, and a book is copied whole at each commit and withdraw
// Rules in their order, at most 64.
#[derive(Clone, Copy)]
pub struct Book {
    rules: [Rule; BOOK_MAX],
    count: usize,
    ghost few: { count ≤ 64 },
    ghost whole: { length rules ≡ 64 },
}

impl Book {
    ghost use Rattle.filter.specs.Books.{held_in};

    // An empty book.
    pub(crate) fn new() -> Book
        ensures { held_in result ≡ [] }
    {
        Book {
            rules: Default::default(),
            count: 0,
        }
    }

    // How many rules the book holds.
    pub(crate) fn len(&self) -> usize
        ensures { (result ≡ length (held_in self.now)) × (result ≡ self.now.count) }
    {
        self.count
    }

    // The rules, in their order.
    pub(crate) fn rules(&self) -> &[Rule]
        ensures { result.now ≡ held_in self.now }
    {
        &self.rules[..self.count]
    }

    // One rule more, behind the others.
    pub(crate) fn push(&mut self, rule: Rule)
        requires { self.old.count < 64 }
        ensures { held_in self.new ≡ held_in self.old ++ (rule ∷ []) }
    {
        self.rules[self.count] = rule;
        self.count += 1;
    }

    // The rule at place at, counted from 0, is taken out, and the gap closed.
    pub(crate) fn remove(&mut self, at: usize)
        requires { at < self.old.count }
        ensures { held_in self.new ≡ remove (held_in self.old) at }
    {
        self.rules.copy_within(at + 1..self.count, at);
        self.count -= 1;
    }
}
