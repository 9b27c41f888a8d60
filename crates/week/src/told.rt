use book::status::Status;
use cost::fee::Fee;
use fault::book::BookFault;

// What the calls of a week answered, in their order.
#[derive(Clone, Copy)]
pub struct Told {
    pub lit: Result<u8, BookFault>,
    pub seen: Result<Option<Status>, BookFault>,
    pub written: Result<usize, BookFault>,
    pub without: Result<Fee, BookFault>,
    pub shut: Result<(), BookFault>,
    pub worst: Result<u16, BookFault>,
    pub given_back: Result<u16, BookFault>,
    pub darkened: Result<u16, BookFault>,
}
