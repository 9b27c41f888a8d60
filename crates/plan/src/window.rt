ghost use Rattle.std.specs.Prelude.{◌≡◌, ◌+◌, ◌*◌, ◌<◌, ◌≤◌, length, Some, None, MatchResult};
ghost use Rattle.fault.specs.Judging.{first};
ghost use Rattle.plan.specs.Bytes.{wide};
ghost use Rattle.plan.specs.Cuts.{Cut};
ghost use Rattle.plan.specs.Sections.{pair_faults};

use fault::plan::SectionFault;

// A section of the plan, read where the plan lies: its bytes and the place of the first.
#[derive(Clone, Copy)]
pub struct Window<'p> {
    pub bytes: &'p [u8],
    pub start: usize,
}

// The number of four bytes from a place on.
fn wide_at(bytes: &[u8], at: usize) -> u32
    requires { at + 3 < length bytes.now }
    ensures { result ≡ wide bytes.now at }
{
    u32::from_be_bytes(*bytes[at..].first_chunk().unwrap())
}

// The section that a pair of the header tells, which begins at a floor or later.
pub(crate) fn cut<'p>(
    bytes: &'p [u8],
    pair: usize,
    floor: usize,
    size: usize,
) -> Result<Window<'p>, SectionFault>
    requires { pair + 7 < length bytes.now }
    ensures { MatchResult result (λ w. Cut bytes.now pair floor size w) (λ e. first (pair_faults bytes.now pair floor size) ≡ Some e) }
{
    let offset = wide_at(bytes, pair);
    let extends = wide_at(bytes, pair + 4);
    // 32 bits always fit
    let start = offset as usize;
    let length = extends as usize;
    if start < floor {
        return Err(SectionFault::Early { at: pair });
    }
    if length != size {
        return Err(SectionFault::Length { at: pair });
    }
    let end = start + length;
    if end > bytes.len() {
        return Err(SectionFault::Beyond { at: pair });
    }
    Ok(Window {
        bytes: &bytes[start..end],
        start,
    })
}

impl Window<'_> {
    // The place after its last byte.
    pub(crate) fn end(&self) -> usize
        requires { self.now.start + length self.now.bytes.now ≤ 65536 }
        ensures { result ≡ self.now.start + length self.now.bytes.now }
    {
        self.start + self.bytes.len()
    }

    // The place of the first byte of record i, where records have `size` bytes.
    pub(crate) fn place(&self, size: usize, i: usize) -> usize
        requires { self.now.start + size * i ≤ 65536 }
        ensures { result ≡ self.now.start + size * i }
    {
        self.start + size * i
    }
}
