// A state whose one entry never changes.
ghost use Rattle.std.specs.Prelude.{◌≡◌, ℕ, [], ◌∷◌};
ghost use Rattle.tests_desk.specs.Shelves.{ReadsLine};

use std::snapshot::Snapshot;
use turn_desk::Served;

/// A thing outside that is read by places.
pub trait Book {
    ghost line_at: { Self → ℕ → ℕ };

    fn read(&mut self, place: u64) -> u64
        ensures same { (n : ℕ) → line_at self.new n ≡ line_at self.old n }
        ensures line { result ≡ line_at self.old place };
}

/// A book that several may read from.
#[derive(Drop)]
pub struct Shelf<B: Book> {
    book: B,
    first: Snapshot<B>,
}

impl<B: Book> Shelf<B> {
    /// A shelf with this book.
    pub fn new(book: B) -> Shelf<B>
        ensures book { result.book ≡ book }
        ensures first { result.first.value ≡ book }
    {
        let first = Snapshot::of(&book);
        Shelf { book, first }
    }

    /// The book.
    pub fn into_book(self) -> B
        ensures { result ≡ self.book }
    {
        let Shelf { book, first: _ } = self;
        book
    }
}

impl<B: Book> Served for Shelf<B> {
    type Start = B;

    type Op = u64;

    type Answer = u64;

    type Entry = B;

    ghost is_lawful = { λ op. Unit {0} };

    ghost start = { λ s. s.first.value };

    ghost entries = { λ s. s.first.value ∷ [] };

    ghost mark = { λ _. record { time = 0; faults = 0 } };

    ghost relates = { ReadsLine B.line_at };

    ghost stands = { λ s turns. (n : ℕ) → B.line_at s.book n ≡ B.line_at s.first.value n };

    fn serve(&mut self, op: u64) -> u64 {
        self.book.read(op)
    }
}
