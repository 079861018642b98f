ghost use Rattle.std.specs.Prelude.{◌≡◌, IfOk};
ghost use Rattle.std.specs.Result.{result_err};
ghost use Rattle.faults.specs.Orders.{RecordEarlier};
ghost use Rattle.faults.specs.Rows.{first, Exact};
ghost use Rattle.dayfile.specs.Structure.{structure_rows};

use crate::bytes::byte_at;
use crate::file::DayFile;
use crate::header::check_header;
use crate::sections::layout_of;
use faults::RecordFault;

impl<'a> DayFile<'a> {
    /// The structural check: a file whose header, sections and party count are right, or the first fault of 11 to 15.
    #[tactic(auto, using(crate::proofs::Opening::parts, crate::proofs::Ordering::exact_structure))]
    pub fn open(bytes: &'a [u8], parties: usize) -> Result<DayFile<'a>, RecordFault>
        ensures fault { result_err result ≡ first (structure_rows bytes.now parties) }
        ensures exact { Exact RecordEarlier (structure_rows bytes.now parties) (result_err result) }
        ensures opened { IfOk result (λ f. (f.bytes.now ≡ bytes.now) × (f.parties ≡ parties)) }
    {
        check_header(bytes)?;
        let layout = layout_of(bytes)?;
        let count = byte_at(bytes, 5);
        if usize::from(count) != parties {
            return Err(RecordFault::PartyCount);
        }
        Ok(DayFile {
            bytes,
            parties: count,
            layout,
        })
    }
}
