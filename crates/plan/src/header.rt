ghost use Rattle.std.specs.Prelude.{◌≡◌, Some, None, MatchResult};
ghost use Rattle.fault.specs.Judging.{first};
ghost use Rattle.network.specs.Extents.{Counted};
ghost use Rattle.network.specs.Spacings.{Spaced, spacing_by};
ghost use Rattle.plan.specs.Header.{header, header_faults, counts_of};

use fault::plan::FileFault;
use network::counts::Counts;
use network::extent::Extent;
use network::spacing::Spacing;

// What the plan's first eight bytes tell. The spacing code is as it stands there, 1 to
// 4 or not, and `counts` takes any header.
#[derive(Clone, Copy, PartialEq, Eq, Debug)]
pub struct Header {
    pub spacing: u8,
    pub nodes: u8,
    pub channels: u8,
    pub spans: u16,
    pub converters: u16,
}

impl Header {
    // How many nodes, spans and channels it tells.
    pub fn counts(self) -> Counts
        ensures { result ≡ counts_of self }
    {
        Counts {
            nodes: usize::from(self.nodes),
            spans: usize::from(self.spans),
            channels: usize::from(self.channels),
        }
    }

    // The counts of a header whose values are in range.
    pub(crate) fn extent(self) -> Extent
        requires { Counted (counts_of self) }
        ensures { result.counts ≡ counts_of self }
    {
        Extent::new(self.counts())
    }

    // The spacing that its code means, where it means one.
    pub(crate) fn told_spacing(self) -> Spacing
        requires { Spaced self.spacing }
        ensures { result ≡ spacing_by self.spacing }
    {
        Spacing::try_from(self.spacing).unwrap()
    }
}

// The header, where its values are in range.
pub(crate) fn read_header(bytes: &[u8]) -> Result<Header, FileFault>
    ensures { MatchResult result (λ h. (first (header_faults bytes.now) ≡ None) × (h ≡ header bytes.now)) (λ e. first (header_faults bytes.now) ≡ Some e) }
{
    if bytes.len() < 40 || bytes.len() > 65536 {
        return Err(FileFault::Size);
    }
    if bytes[0] != 1 {
        return Err(FileFault::Version);
    }
    let header = Header {
        spacing: bytes[1],
        nodes: bytes[2],
        channels: bytes[3],
        spans: u16::from_be_bytes([bytes[4], bytes[5]]),
        converters: u16::from_be_bytes([bytes[6], bytes[7]]),
    };
    if header.spacing < 1 || header.spacing > 4 {
        return Err(FileFault::Value { at: 1 });
    }
    if header.nodes < 1 || header.nodes > 64 {
        return Err(FileFault::Value { at: 2 });
    }
    if header.channels < 1 || header.channels > 16 {
        return Err(FileFault::Value { at: 3 });
    }
    if header.spans > 256 {
        return Err(FileFault::Value { at: 4 });
    }
    if header.converters > 4096 {
        return Err(FileFault::Value { at: 6 });
    }
    Ok(header)
}
