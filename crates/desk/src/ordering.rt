ghost use Rattle.std.specs.Prelude.{◌≡◌, Ok, Err};
ghost use Rattle.network.specs.Net.{net};
ghost use Rattle.book.specs.Changes.{changed_by};
ghost use Rattle.book.specs.State.{tables, Kept};
ghost use Rattle.orders.specs.Orders.{lit_changes};
ghost use Rattle.desk.specs.Replies.{Maps};
ghost use Rattle.desk.specs.declared.reply.Cost.TheVariants as cost;
ghost use Rattle.desk.specs.Serving.{Orders, Trials};

use super::reply::Cost;
use book::Book;
use cost::fee::Fee;
use cost::few::Few;
use cost::sum::Sum;
use cost::tally::Tally;
use cost::worst::Worst;
use fault::book::BookFault;
use network::Network;
use orders::{light, price};
use search::label::Label;
use ticket::{CostKind, Order, Trial};

// As many labels as the largest network has arrivals: 64 nodes, 16 channels.
const LABELS: usize = 1024;

// A cost by SUM, or the same refusal.
fn by_sum(answer: Result<Fee, BookFault>) -> Result<Cost, BookFault>
    ensures { Maps cost.Sum answer result }
{
    Ok(Cost::Sum(answer?))
}

// A cost by FEW, or the same refusal.
fn by_few(answer: Result<Tally, BookFault>) -> Result<Cost, BookFault>
    ensures { Maps cost.Few answer result }
{
    Ok(Cost::Few(answer?))
}

// A cost by WORST, or the same refusal.
fn by_worst(answer: Result<u16, BookFault>) -> Result<Cost, BookFault>
    ensures { Maps cost.Worst answer result }
{
    Ok(Cost::Worst(answer?))
}

// Lights an order's circuit, by its kind of cost.
pub(crate) fn light_by_kind(
    network: &Network<'_, '_>,
    book: &mut Book<'_, '_, '_>,
    order: Order,
) -> Result<Cost, BookFault>
    ensures kept { Kept book.old book.new }
    ensures answer { Orders (net network.now) book.old.extent.counts (tables book.old) order
        (λ p v. (result ≡ Ok v) × (tables book.new ≡ changed_by book.old.extent.counts (lit_changes order.circuit order.from order.to p) (tables book.old)))
        (λ f. (result ≡ Err f) × (tables book.new ≡ tables book.old)) }
{
    let Order {
        circuit,
        from,
        to,
        kind,
    } = order;
    match kind {
        CostKind::Sum => {
            let mut labels: [Label<Fee>; LABELS] = [None; LABELS];
            by_sum(light(book, network, circuit, from, to, &Sum, &mut labels))
        }
        CostKind::Few => {
            let mut labels: [Label<Tally>; LABELS] = [None; LABELS];
            by_few(light(book, network, circuit, from, to, &Few, &mut labels))
        }
        CostKind::Worst => {
            let mut labels: [Label<u16>; LABELS] = [None; LABELS];
            by_worst(light(book, network, circuit, from, to, &Worst, &mut labels))
        }
    }
}

// Prices an order, by its kind of cost.
pub(crate) fn price_by_kind(
    network: &Network<'_, '_>,
    book: &mut Book<'_, '_, '_>,
    order: Order,
) -> Result<Cost, BookFault>
    ensures kept { Kept book.old book.new }
    ensures answer { Orders (net network.now) book.old.extent.counts (tables book.old) order (λ p v. result ≡ Ok v) (λ f. result ≡ Err f) }
    ensures tables { tables book.new ≡ tables book.old }
{
    let Order {
        circuit,
        from,
        to,
        kind,
    } = order;
    match kind {
        CostKind::Sum => {
            let mut labels: [Label<Fee>; LABELS] = [None; LABELS];
            by_sum(price(book, network, circuit, from, to, &Sum, &mut labels))
        }
        CostKind::Few => {
            let mut labels: [Label<Tally>; LABELS] = [None; LABELS];
            by_few(price(book, network, circuit, from, to, &Few, &mut labels))
        }
        CostKind::Worst => {
            let mut labels: [Label<u16>; LABELS] = [None; LABELS];
            by_worst(price(book, network, circuit, from, to, &Worst, &mut labels))
        }
    }
}

// Prices a trial, by its kind of cost.
pub(crate) fn try_by_kind(
    network: &Network<'_, '_>,
    book: &mut Book<'_, '_, '_>,
    trial: Trial,
) -> Result<Cost, BookFault>
    ensures kept { Kept book.old book.new }
    ensures answer { Trials (net network.now) book.old.extent.counts (tables book.old) trial (λ p v. result ≡ Ok v) (λ f. result ≡ Err f) }
    ensures tables { tables book.new ≡ tables book.old }
{
    let Trial {
        from,
        to,
        span,
        kind,
    } = trial;
    match kind {
        CostKind::Sum => {
            let mut labels: [Label<Fee>; LABELS] = [None; LABELS];
            by_sum(book.trial(network, from, to, span, &Sum, &mut labels))
        }
        CostKind::Few => {
            let mut labels: [Label<Tally>; LABELS] = [None; LABELS];
            by_few(book.trial(network, from, to, span, &Few, &mut labels))
        }
        CostKind::Worst => {
            let mut labels: [Label<u16>; LABELS] = [None; LABELS];
            by_worst(book.trial(network, from, to, span, &Worst, &mut labels))
        }
    }
}
