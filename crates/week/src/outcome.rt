use super::told::Told;
use book::Book;
use fault::book::BookFault;

// What comes of a week: short tables are refused, else it leaves its calls' answers, and the book as it
// stands at the end.
#[derive(Drop)]
pub enum Outcome<'a, 'b, 'c> {
    Refused(BookFault),
    Lived(Told, Book<'a, 'b, 'c>),
}
