ghost use Rattle.std.specs.Prelude.{◌≡◌, ◌≤◌, length, if◌then◌else◌, Some, None, Ok, Err, MatchResult};
ghost use Rattle.fault.specs.declared.book.BookFault.TheVariants.{LoadTable};
ghost use Rattle.fault.specs.Judging.{first, unless};
ghost use Rattle.plan.specs.Header.{header as header_of, header_faults};
ghost use Rattle.plan.specs.Kept.{Told, Fitted, Accepted, rows_of};
ghost use Rattle.plan.specs.Plan.{pairs_faults, section_faults, file_faults, load_faults, roomy};
ghost use Rattle.plan.specs.Unread.{Unread};

use super::checks::check_section;
use super::header::{Header, read_header};
use super::record::Converter;
use super::window::{Window, cut};
use fault::book::BookFault;
use fault::plan::{FileFault, LoadFault, RecordFault, SectionFault};
use network::extent::Extent;
use network::span::Span;

// How many bytes the header has, and where in it the pairs of the four sections stand.
const HEADER: usize = 40;

const NUMBERS: usize = 8;

const SPANS: usize = 16;

const TARIFFS: usize = 24;

const CONVERTERS: usize = 32;

// A plan over its bytes, its four sections as windows.
#[derive(Clone, Copy)]
pub struct Plan<'p> {
    pub header: Header,
    pub numbers: Window<'p>,
    pub spans: Window<'p>,
    pub tariffs: Window<'p>,
    pub converters: Window<'p>,
}

// The four sections that the header's pairs tell.
#[tactic(auto, using(crate::proofs::Firsts::first_pair, crate::proofs::Heads::headed))]
fn cut_sections<'p>(bytes: &'p [u8], header: Header) -> Result<Plan<'p>, SectionFault>
    requires is { header ≡ header_of bytes.now }
    requires sound { first (header_faults bytes.now) ≡ None }
    ensures { MatchResult result (λ p. (first (pairs_faults bytes.now header) ≡ None) × Told bytes.now header p × Fitted p) (λ e. first (pairs_faults bytes.now header) ≡ Some e) }
{
    let extent = header.extent();
    let counts = extent.counts();
    let numbers = cut(bytes, NUMBERS, HEADER, 2 * counts.channels)?;
    let spans = cut(bytes, SPANS, numbers.end(), 2 * counts.spans)?;
    let tariffs = cut(bytes, TARIFFS, spans.end(), 2 * extent.span_entries())?;
    let count = usize::from(header.converters);
    let converters = cut(bytes, CONVERTERS, tariffs.end(), 5 * count)?;
    Ok(Plan {
        header,
        numbers,
        spans,
        tariffs,
        converters,
    })
}

// The records of the sections: channel numbers, then spans, then converters.
#[tactic(auto, using(crate::proofs::Firsts::first_row))]
fn check_records(plan: Plan) -> Result<(), RecordFault>
    requires { Fitted plan }
    ensures { result ≡ unless (first (rows_of plan.entry)) tt }
{
    let counts = plan.header.counts();
    check_section::<i16, 2>(plan.numbers, counts)?;
    check_section::<Span, 2>(plan.spans, counts)?;
    check_section::<Converter, 5>(plan.converters, counts)
}

// The sections, cut and then judged.
#[tactic(auto, using(crate::proofs::Firsts::first_section, crate::proofs::Firsts::rows_are))]
fn read_sections<'p>(bytes: &'p [u8], header: Header) -> Result<Plan<'p>, SectionFault>
    requires is { header ≡ header_of bytes.now }
    requires sound { first (header_faults bytes.now) ≡ None }
    ensures { MatchResult result (λ p. (first (section_faults bytes.now header) ≡ None) × Told bytes.now header p × Fitted p) (λ e. first (section_faults bytes.now header) ≡ Some e) }
{
    let plan = cut_sections(bytes, header)?;
    check_records(plan)?;
    Ok(plan)
}

// The header, and then the sections.
#[tactic(auto, using(crate::proofs::Firsts::first_in_file))]
fn read_file<'p>(bytes: &'p [u8]) -> Result<Plan<'p>, FileFault>
    ensures { MatchResult result (λ p. (first (file_faults bytes.now) ≡ None) × Told bytes.now (header_of bytes.now) p × Fitted p) (λ e. first (file_faults bytes.now) ≡ Some e) }
{
    let header = read_header(bytes)?;
    let plan = read_sections(bytes, header)?;
    Ok(plan)
}

// Whether the two tables of tariffs have room for the plan's network.
fn check_room(extent: Extent, tariffs: &[u16], converters: &[u16]) -> Result<(), BookFault>
    ensures { result ≡ (if roomy extent.counts (length tariffs.now) (length converters.now) then Ok tt else Err LoadTable) }
{
    if tariffs.len() < extent.span_entries() || converters.len() < extent.converter_entries() {
        return Err(BookFault::LoadTable);
    }
    Ok(())
}

// The first fault of a plan that is to be loaded into two tables, or the plan. The tables are two
// slices, here and in `Plan::network`: this call only reads how long they are.
#[tactic(auto, using(crate::proofs::Firsts::first_of_load, crate::proofs::Heads::headed, crate::proofs::Outside::unread))]
pub fn check<'p>(
    bytes: &'p [u8],
    tariffs: &[u16],
    converters: &[u16],
) -> Result<Plan<'p>, LoadFault>
    ensures answer { MatchResult result (λ p. Accepted p bytes.now (length tariffs.now) (length converters.now)) (λ e. first (load_faults bytes.now (length tariffs.now) (length converters.now)) ≡ Some e) }
    ensures unread { Unread }
{
    let plan = read_file(bytes)?;
    check_room(plan.header.extent(), tariffs, converters)?;
    Ok(plan)
}
