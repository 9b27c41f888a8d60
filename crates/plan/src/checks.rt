ghost use Rattle.std.specs.Prelude.{◌≡◌, ◌+◌, ◌*◌, ◌/◌, ◌<◌, ◌≤◌, length};
ghost use Rattle.fault.specs.Judging.{first, each, unless};
ghost use Rattle.plan.specs.Records.{record_row};

use super::record::Judged;
use super::window::Window;
use fault::plan::RecordFault;
use network::counts::Counts;

// The records of a section, in their order.
pub(crate) fn check_section<R: Judged<N>, const N: usize>(
    window: Window,
    counts: Counts,
) -> Result<(), RecordFault>
    requires { window.start + length window.bytes.now ≤ 65536 }
    ensures { result ≡ unless (first (each (length window.entry.bytes.now / N) (record_row N (R.sound counts) R.fault window.entry.start (R.record_in window.entry.bytes.now)))) tt }
{
    let (records, _) = window.bytes.as_chunks::<N>();
    let mut last = None;
    for (i, bytes) in records.iter().enumerate() {
        let record = R::read(bytes);
        if !record.is_sound(counts, last) {
            return Err(R::fault(window.place(N, i)));
        }
        last = Some(record);
    }
    Ok(())
}
