//! An account of a book's calls, and the law that every run of a book agrees with it.
#![tactic(auto)]

ghost use Rattle.std.specs.Prelude.{◌≡◌, Ok};
ghost use Rattle.network.specs.Net.{net};
ghost use Rattle.book.specs.Opening.{room, opened};
ghost use Rattle.book.specs.State.{tables, contents, SameTables};
ghost use Rattle.account.specs.Law.{Law};

use book::Book;
use book::lent::Lent;
use network::Network;

// Opens a book of a network, all free and open, over tables that have room. From then on, whatever calls
// come, the book agrees with an account of them.
pub fn open<'a, 'b, 'c>(network: &Network, mark: u32, lent: Lent<'a, 'b, 'c>) -> Book<'a, 'b, 'c>
    requires { room (net network.now).counts (contents lent) ≡ Ok tt }
    ensures counts { result.extent.counts ≡ (net network.now).counts }
    ensures mark { result.mark ≡ mark }
    ensures tables { tables result ≡ opened (net network.now).counts (contents lent.entry) }
    ensures names { SameTables lent.entry result.lent }
    ensures law { Law result }
{
    Book::open(network, mark, lent)
}
