ghost use Rattle.std.specs.Prelude.{◌≡◌, None, length, IfOk};
ghost use Rattle.fault.specs.Reports.{of_book};
ghost use Rattle.fault.specs.declared.book.BookFault.TheVariants.{CircuitState};
ghost use Rattle.network.specs.Net.{net};
ghost use Rattle.book.specs.Calls.{Offers, Confirms, Withdraws};
ghost use Rattle.book.specs.Refusing.{spend_refusal};
ghost use Rattle.book.specs.State.{tables, Kept};
ghost use Rattle.cabinet.specs.Replies.{by_sum, by_few, by_worst, refused};
ghost use Rattle.cabinet.specs.Requests.{call_of};
ghost use Rattle.cabinet.specs.Serving.{Good, served, Returned, offered, OffersRoomy, OffersByKind, Asks, Spends, DarkensIt, ShutsIt, SlipsAt, stand, Serves};

use super::reply::Reply;
use super::request::{Call, Request};
use super::switch::{Switch, write_from};
use book::Book;
use book::offer::{Offer, Offered};
use cost::fee::Fee;
use cost::few::Few;
use cost::kind::Kind;
use cost::sum::Sum;
use cost::tally::Tally;
use cost::worst::Worst;
use fault::book::BookFault;
use network::Network;
use search::label::Label;
use slip::setting::BLANK;
use ticket::{CostKind, Order};

// As many labels as the largest network has arrivals: 64 nodes, 16 channels.
const LABELS: usize = 1024;

// As many settings as a slip can have: one more than a path has steps.
const SETTINGS: usize = 1025;

// What comes of a request: a reply, and the offer that is in hand then.
pub(crate) struct Served {
    pub(crate) reply: Reply,
    pub(crate) hand: Option<Offer>,
}

// Asks the book for an offer, which can then be spent.
fn ask<K: Kind>(
    book: &mut Book<'_, '_, '_>,
    network: &Network<'_, '_>,
    order: Order,
    kind: &K,
    labels: &mut [Label<K::Value>],
) -> Result<Offered<K::Value>, BookFault>
    ensures kept { Kept book.old book.new }
    ensures call { Offers K.ops (net network.now) book.old.extent.counts book.old.mark (tables book.old) order.circuit order.from order.to (length labels.old) result (tables book.new) }
    ensures good { IfOk result (λ o. spend_refusal book.new.mark (tables book.new) o.offer ≡ None) }
{
    let offered = book.offer(network, order.circuit, order.from, order.to, kind, labels)?;
    Ok(offered)
}

// The same, with room for every search.
fn ask_with_room<K: Kind>(
    book: &mut Book<'_, '_, '_>,
    network: &Network<'_, '_>,
    order: Order,
    kind: &K,
    labels: &mut [Label<K::Value>],
) -> Result<Offered<K::Value>, BookFault>
    requires { length labels.old ≡ 1024 }
    ensures kept { Kept book.old book.new }
    ensures call { OffersRoomy K.ops (net network.now) book.old.extent.counts book.old.mark (tables book.old) order result (tables book.new) }
    ensures good { IfOk result (λ o. spend_refusal book.new.mark (tables book.new) o.offer ≡ None) }
{
    ask(book, network, order, kind, labels)
}

// An offer by SUM, in plain numbers.
fn by_sum(answer: Result<Offered<Fee>, BookFault>) -> Served
    ensures { result ≡ offered by_sum answer }
{
    match answer {
        Ok(Offered { cost, steps, offer }) => Served {
            reply: Reply::priced(steps, 0, cost.amount),
            hand: Some(offer),
        },
        Err(fault) => Served {
            reply: Reply::refused_by_book(fault),
            hand: None,
        },
    }
}

// An offer by FEW.
fn by_few(answer: Result<Offered<Tally>, BookFault>) -> Served
    ensures { result ≡ offered by_few answer }
{
    match answer {
        Ok(Offered { cost, steps, offer }) => Served {
            reply: Reply::priced(steps, cost.conversions, cost.sum.amount),
            hand: Some(offer),
        },
        Err(fault) => Served {
            reply: Reply::refused_by_book(fault),
            hand: None,
        },
    }
}

// An offer by WORST.
fn by_worst(answer: Result<Offered<u16>, BookFault>) -> Served
    ensures { result ≡ offered by_worst answer }
{
    match answer {
        Ok(Offered { cost, steps, offer }) => Served {
            reply: Reply::priced(steps, 0, u32::from(cost)),
            hand: Some(offer),
        },
        Err(fault) => Served {
            reply: Reply::refused_by_book(fault),
            hand: None,
        },
    }
}

// Asks for an offer by the order's kind of cost.
fn offer(book: &mut Book<'_, '_, '_>, network: &Network<'_, '_>, order: Order) -> Served
    ensures kept { Kept book.old book.new }
    ensures call { OffersByKind order.kind (net network.now) book.old.extent.counts book.old.mark (tables book.old) order result (tables book.new) }
    ensures good { Good book.new.mark (tables book.new) result.hand }
{
    match order.kind {
        CostKind::Sum => {
            let mut labels: [Label<Fee>; LABELS] = [None; LABELS];
            by_sum(ask_with_room(book, network, order, &Sum, &mut labels))
        }
        CostKind::Few => {
            let mut labels: [Label<Tally>; LABELS] = [None; LABELS];
            by_few(ask_with_room(book, network, order, &Few, &mut labels))
        }
        CostKind::Worst => {
            let mut labels: [Label<u16>; LABELS] = [None; LABELS];
            by_worst(ask_with_room(book, network, order, &Worst, &mut labels))
        }
    }
}

// Withdraws the offer in hand, if there is one.
pub(crate) fn give_back(book: &mut Book<'_, '_, '_>, hand: Option<Offer>)
    requires { Good book.old.mark (tables book.old) hand }
    ensures kept { Kept book.old book.new }
    ensures returned { Returned book.old.extent.counts book.old.mark (tables book.old) hand (tables book.new) }
{
    if let Some(offer) = hand {
        match book.withdraw(offer) {
            Ok(_) => (),
            Err(_) => unreachable!(),
        }
    }
}

// Withdraws what is in hand, and asks for an offer.
fn offer_anew(
    book: &mut Book<'_, '_, '_>,
    network: &Network<'_, '_>,
    hand: Option<Offer>,
    order: Order,
) -> Served
    requires { Good book.old.mark (tables book.old) hand }
    ensures kept { Kept book.old book.new }
    ensures call { Asks (net network.now) book.old.extent.counts book.old.mark (tables book.old) hand order result (tables book.new) }
    ensures good { Good book.new.mark (tables book.new) result.hand }
{
    give_back(book, hand);
    offer(book, network, order)
}

// What is replied where no offer is in hand to be spent.
fn empty_handed() -> Served
    ensures { result ≡ served (refused (of_book CircuitState).number) None }
{
    Served {
        reply: Reply::refused_by_book(BookFault::CircuitState),
        hand: None,
    }
}

// Confirms the offer in hand.
fn confirm(book: &mut Book<'_, '_, '_>, hand: Option<Offer>) -> Served
    requires { Good book.old.mark (tables book.old) hand }
    ensures kept { Kept book.old book.new }
    ensures call { Spends (Confirms book.old.extent.counts book.old.mark (tables book.old)) (tables book.old) hand result (tables book.new) }
    ensures empty { result.hand ≡ None }
{
    let Some(offer) = hand else {
        return empty_handed();
    };
    match book.confirm(offer) {
        Ok(circuit) => Served {
            reply: Reply::counted(usize::from(circuit)),
            hand: None,
        },
        Err(_) => unreachable!(),
    }
}

// Withdraws the offer in hand.
fn withdraw(book: &mut Book<'_, '_, '_>, hand: Option<Offer>) -> Served
    requires { Good book.old.mark (tables book.old) hand }
    ensures kept { Kept book.old book.new }
    ensures call { Spends (Withdraws book.old.extent.counts book.old.mark (tables book.old)) (tables book.old) hand result (tables book.new) }
    ensures empty { result.hand ≡ None }
{
    let Some(offer) = hand else {
        return empty_handed();
    };
    match book.withdraw(offer) {
        Ok(channels) => Served {
            reply: Reply::counted(usize::from(channels)),
            hand: None,
        },
        Err(_) => unreachable!(),
    }
}

// Darkens a circuit.
fn darken(book: &mut Book<'_, '_, '_>, circuit: u16) -> Reply
    ensures kept { Kept book.old book.new }
    ensures call { DarkensIt book.old.extent.counts (tables book.old) circuit result (tables book.new) }
{
    match book.darken(circuit) {
        Ok(channels) => Reply::counted(usize::from(channels)),
        Err(fault) => Reply::refused_by_book(fault),
    }
}

// Shuts a span.
fn shut(book: &mut Book<'_, '_, '_>, span: u16) -> Reply
    ensures kept { Kept book.old book.new }
    ensures call { ShutsIt book.old.extent.counts (tables book.old) span result (tables book.new) }
{
    match book.shut(span) {
        Ok(()) => Reply::counted(0),
        Err(fault) => Reply::refused_by_book(fault),
    }
}

// Writes the slip of a circuit from a place on.
fn slip(
    book: &Book<'_, '_, '_>,
    network: &Network<'_, '_>,
    circuit: u16,
    place: usize,
    switches: &mut [Switch],
) -> Reply
    ensures { SlipsAt (net network.now) book.now.extent.counts (tables book.now) circuit place switches.old result switches.new }
{
    let mut settings = [BLANK; SETTINGS];
    let room = switches.len().saturating_sub(place).min(SETTINGS);
    let buffer = &mut settings[..room];
    match book.slip(network, circuit, buffer) {
        Ok(count) => {
            write_from(&buffer[..count], place, switches);
            Reply::counted(count)
        }
        Err(fault) => Reply::refused_by_book(fault),
    }
}

// Serves a request, with an offer in hand or none.
pub(crate) fn serve(
    book: &mut Book<'_, '_, '_>,
    network: &Network<'_, '_>,
    hand: Option<Offer>,
    request: Request,
    switches: &mut [Switch],
) -> Served
    requires { Good book.old.mark (tables book.old) hand }
    ensures kept { Kept book.old book.new }
    ensures serves { Serves (net network.now) book.old.extent.counts book.old.mark (stand (tables book.old) hand switches.old) (call_of request) result (tables book.new) switches.new }
    ensures good { Good book.new.mark (tables book.new) result.hand }
{
    let reply = match request.told_call() {
        Ok(Call::Offer(order)) => return offer_anew(book, network, hand, order),
        Ok(Call::Confirm) => return confirm(book, hand),
        Ok(Call::Withdraw) => return withdraw(book, hand),
        Ok(Call::Darken { circuit }) => darken(book, circuit),
        Ok(Call::Shut { span }) => shut(book, span),
        Ok(Call::Slip { circuit, place }) => slip(book, network, circuit, place, switches),
        Err(fault) => Reply::refused_as_asked(fault),
    };
    Served { reply, hand }
}
