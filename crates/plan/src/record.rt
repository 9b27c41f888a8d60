ghost use Rattle.std.specs.Prelude.{◌≡◌, ℕ, ◌*◌, ◌<◌, ◌≤◌, Bool, List, take, drop, Option};
ghost use Rattle.std.proofs.Common.{rules};
ghost use Rattle.std.proofs.lemmas.Grind.{common_steps};
ghost use Rattle.fault.specs.declared.plan.RecordFault.{RecordFault};
ghost use Rattle.fault.specs.declared.plan.RecordFault.TheVariants as faults;
ghost use Rattle.network.specs.declared.counts.Counts.{Counts};
ghost use Rattle.plan.specs.Apart.{converter_apart};
ghost use Rattle.plan.specs.Records.{number_in, span_in, tariff_in, converter_in, sound_number, sound_span, sound_converter};

use fault::plan::RecordFault;
use network::ABSENT;
use network::counts::Counts;
use network::number::in_range;
use network::span::Span;

// A converter of a node: it changes one channel into another.
#[derive(Clone, Copy, PartialEq, Eq, Debug)]
pub struct Converter {
    pub node: u8,
    pub from: u8,
    pub to: u8,
    pub tariff: u16,
}

// The records of a section, which have N bytes each.
pub(crate) trait Record<const N: usize>: Copy {
    // record i, by the section's bytes
    ghost record_in: { List ℕ → ℕ → Self };

    // The record that has these bytes.
    fn read(bytes: &[u8; N]) -> Self
        ensures { result ≡ record_in bytes.now 0 };

    // a record has some bytes, and no more than a plan
    ghost size: { (0 < N) × (N ≤ 65536) };

    // a record is told by its own bytes
    ghost apart: { (bs : List ℕ) (i : ℕ) → record_in (take N (drop (N * i) bs)) 0 ≡ record_in bs i };
}

// Records that are judged, by the header's counts and by the record before.
pub(crate) trait Judged<const N: usize>: Record<N> {
    ghost sound: { Counts → Option Self → Self → Bool };

    ghost fault: { ℕ → RecordFault };

    // Whether the record is sound.
    fn is_sound(self, counts: Counts, last: Option<Self>) -> bool
        ensures { result ≡ sound counts last self };

    // The fault of a record whose first byte is at a place.
    fn fault(at: usize) -> RecordFault
        ensures { result ≡ fault at };
}

impl Record<2> for i16 {
    ghost record_in = { number_in };

    fn read(bytes: &[u8; 2]) -> i16 {
        i16::from_be_bytes(*bytes)
    }

    ghost size = { Prim.search rules };

    ghost apart = { Prim.search (rules, common_steps) };
}

impl Record<2> for Span {
    ghost record_in = { span_in };

    fn read(bytes: &[u8; 2]) -> Span {
        let [tail, head] = *bytes;
        Span { tail, head }
    }

    ghost size = { Prim.search rules };

    ghost apart = { Prim.search (rules, common_steps) };
}

impl Record<2> for u16 {
    ghost record_in = { tariff_in };

    fn read(bytes: &[u8; 2]) -> u16 {
        u16::from_be_bytes(*bytes)
    }

    ghost size = { Prim.search rules };

    ghost apart = { Prim.search (rules, common_steps) };
}

impl Record<5> for Converter {
    ghost record_in = { converter_in };

    fn read(bytes: &[u8; 5]) -> Converter {
        let [node, from, to, hi, lo] = *bytes;
        Converter {
            node,
            from,
            to,
            tariff: u16::from_be_bytes([hi, lo]),
        }
    }

    ghost size = { Prim.search rules };

    ghost apart = { converter_apart };
}

impl Judged<2> for i16 {
    ghost sound = { λ _. sound_number };

    ghost fault = { faults.Channel };

    // A channel number is from -1,000 to 1,000, above the one before.
    fn is_sound(self, _counts: Counts, last: Option<i16>) -> bool
        ensures { result ≡ sound_number last self }
    {
        in_range(self) && last.is_none_or(|before| before < self)
    }

    fn fault(at: usize) -> RecordFault {
        RecordFault::Channel { at }
    }
}

impl Judged<2> for Span {
    ghost sound = { λ counts _. sound_span counts };

    ghost fault = { faults.Span };

    // A span joins two different nodes.
    fn is_sound(self, counts: Counts, _last: Option<Span>) -> bool
        ensures { result ≡ sound_span counts self }
    {
        usize::from(self.tail) < counts.nodes
            && usize::from(self.head) < counts.nodes
            && self.tail != self.head
    }

    fn fault(at: usize) -> RecordFault {
        RecordFault::Span { at }
    }
}

impl Judged<5> for Converter {
    ghost sound = { sound_converter };

    ghost fault = { faults.Converter };

    // A converter is at a node, changes one channel into another, and has a tariff. Converters rise
    // by node, then by the channel from, then by the channel to.
    fn is_sound(self, counts: Counts, last: Option<Converter>) -> bool
        ensures { result ≡ sound_converter counts last self }
    {
        usize::from(self.node) < counts.nodes
            && usize::from(self.from) < counts.channels
            && usize::from(self.to) < counts.channels
            && self.from != self.to
            && self.tariff != ABSENT
            && last.is_none_or(|b| (b.node, b.from, b.to) < (self.node, self.from, self.to))
    }

    fn fault(at: usize) -> RecordFault {
        RecordFault::Converter { at }
    }
}
