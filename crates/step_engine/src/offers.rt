ghost use Rattle.std.specs.Prelude.{◌≡◌, ℕ, List};
ghost use Rattle.step_cells.specs.declared.cell.Cell.{Cell};
ghost use Rattle.step_plans.specs.Books.{Book, IsOf, IsOffered, IsSameBook};

use step_cells::{Cell, Handle};

/// What takes the async calls of a node and gives their replies.
pub trait Offers {
    /// What is there after the calls of a book, with the replies to them. A type need not keep its book.
    ghost stands: { Self → Book → Type 0 };

    /// Whether a call of an instance with this input is taken while the owner holds these cells.
    ghost takes: { Self → ℕ → List Cell → List Cell → Type 0 };

    /// Adds a call to the book, and answers the handle of its first output. `names` are the cells that the owner holds.
    fn offer(&mut self, instance: u32, reset: bool, input: &[Cell], names: &[Cell]) -> Handle
        requires { takes self.old instance input.now names.now }
        ensures { (book : Book) → stands self.old book → (later : Book) × stands self.new later × IsOffered book later instance reset input.now result };

    /// The reply to a call of the book.
    fn get(&mut self, handle: Handle) -> u32
        requires { (book : Book) × stands self.old book × IsOf book handle }
        ensures { (book : Book) → stands self.old book → IsOf book handle → (result ≡ book.reply handle) × (later : Book) × stands self.new later × IsSameBook book later };
}
