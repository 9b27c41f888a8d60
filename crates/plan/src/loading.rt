ghost use Rattle.std.specs.Prelude.{◌≡◌, ℕ, ◌+◌, ◌*◌, ◌/◌, ◌<◌, ◌≤◌, List, length};
ghost use Rattle.network.specs.Tables.{filled, tabled};
ghost use Rattle.network.specs.Tariffs.{absent, converter_entries};
ghost use Rattle.network.specs.Net.{net};
ghost use Rattle.network.specs.Spacings.{code_of};
ghost use Rattle.plan.specs.Faithful.{Faithful};
ghost use Rattle.plan.specs.Kept.{Accepted};
ghost use Rattle.plan.specs.Plan.{read_by};
ghost use Rattle.plan.specs.Records.{converter_in};
ghost use Rattle.plan.specs.Telling.{place, Stands, listed, tells, tariff_table, converter_table, Loaded};

use super::reader::Plan;
use super::record::{Converter, Record};
use super::window::Window;
use network::extent::Extent;
use network::span::Span;
use network::table::fill;
use network::{ABSENT, Network};

// Reads a section into the first entries of a table; those beyond stay. It writes by index: after a
// `zip` over `iter_mut` nothing is known of the table.
fn read_records<R: Record<N>, const N: usize>(window: Window, table: &mut [R])
    requires { length window.bytes.now / N ≤ length table.old }
    ensures { table.new ≡ tabled (length window.entry.bytes.now / N) (R.record_in window.entry.bytes.now) table.old }
{
    let (records, _) = window.bytes.as_chunks::<N>();
    for (i, bytes) in records.iter().enumerate() {
        table[i] = R::read(bytes);
    }
}

// Where a converter stands in the table.
fn entry_of(extent: Extent, converter: Converter) -> usize
    requires { Stands extent.counts converter }
    ensures is { result ≡ place extent.counts converter }
    ensures within { result < converter_entries extent.counts }
{
    let node = usize::from(converter.node);
    let from = usize::from(converter.from);
    extent
        .converter_entry(node, from, usize::from(converter.to))
        .unwrap()
}

// No converter anywhere.
fn clear_converters(extent: Extent, table: &mut [u16])
    ensures { table.new ≡ filled (converter_entries extent.counts) absent table.old }
{
    fill(table, extent.converter_entries(), ABSENT);
}

// Writes each converter of a section into its entry, and none into the others.
fn write_converters(window: Window, extent: Extent, table: &mut [u16])
    requires room { converter_entries extent.counts ≤ length table.old }
    requires standing { (i : ℕ) → i < length window.bytes.now / 5 → Stands extent.counts (converter_in window.bytes.now i) }
    ensures { table.new ≡ tabled (converter_entries extent.counts) (listed extent.counts (converter_in window.entry.bytes.now) (length window.entry.bytes.now / 5)) table.old }
{
    clear_converters(extent, table);
    let (records, _) = window.bytes.as_chunks();
    for bytes in records {
        let converter = Converter::read(bytes);
        let at = entry_of(extent, converter);
        table[at] = converter.tariff;
    }
}

impl Plan<'_> {
    // Writes the tariffs of an accepted plan into the two tables.
    pub fn load(self, tariffs: &mut [u16], converters: &mut [u16])
        requires { (bs : List ℕ) × Accepted self bs (length tariffs.old) (length converters.old) }
        ensures tables { (tariffs.new ≡ tariff_table (read_by self.entry) tariffs.old) × (converters.new ≡ converter_table (read_by self.entry) converters.old) }
        ensures loaded { Loaded (read_by self.entry) tariffs.new converters.new }
    {
        let extent = self.header.extent();
        read_records(self.tariffs, tariffs);
        write_converters(self.converters, extent, converters);
    }

    // The network of an accepted plan, over the tables that it was loaded into.
    pub fn network<'s, 'c>(self, tariffs: &'s [u16], converters: &'c [u16]) -> Network<'s, 'c>
        requires accepted { (bs : List ℕ) × Accepted self bs (length tariffs.now) (length converters.now) }
        requires loaded { Loaded (read_by self) tariffs.now converters.now }
        ensures is { net result ≡ tells (read_by self.entry) }
        ensures code { code_of (net result).spacing ≡ self.entry.header.spacing }
        ensures faithful { Faithful (read_by self.entry) (net result) }
    {
        let extent = self.header.extent();
        let spacing = self.header.told_spacing();
        let mut numbers = [0; 16];
        read_records(self.numbers, &mut numbers);
        let mut ends = [Span { tail: 0, head: 0 }; 256];
        read_records(self.spans, &mut ends);
        Network::make(extent, spacing, numbers, ends, tariffs, converters)
    }
}
