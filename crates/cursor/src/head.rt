// The book's header, read field by field through a reader.
ghost use Rattle.std.specs.Prelude.{◌≡◌};
ghost use Rattle.cursor.specs.Answer.{with_counts, Headed};

use crate::field::{COUNT, RANGE, SIZE, VERSION};
use crate::reader::{next_field, open_reader};
use crate::{FieldRead, Header, HeaderRefused, Refusal};

// A field of the header, or its refusal beside the counts that were read before.
fn with_counts(
    read: Result<FieldRead, Refusal>,
    jobs: usize,
    resources: usize,
) -> Result<FieldRead, HeaderRefused>
    ensures { result ≡ with_counts jobs resources read }
{
    match read {
        Ok(f) => Ok(f),
        Err(refusal) => Err(HeaderRefused {
            refusal,
            jobs,
            resources,
        }),
    }
}

pub fn header(s: &[u8]) -> Result<Header, HeaderRefused>
    ensures { Headed s.now result }
{
    let bytes = s.len();
    if bytes < 9 {
        let short = Refusal {
            number: SIZE,
            place: 0,
        };
        return Err(HeaderRefused {
            refusal: short,
            jobs: 0,
            resources: 0,
        });
    }
    let length = next_field(open_reader(s), 2, bytes, bytes, SIZE);
    with_counts(length.field, 0, 0)?;
    let version = next_field(length.rest, 1, 1, 1, VERSION);
    with_counts(version.field, 0, 0)?;
    let jobs = next_field(version.rest, 1, 0, 32, COUNT);
    let job_count = with_counts(jobs.field, 0, 0)?;
    let resources = next_field(jobs.rest, 1, 0, 32, COUNT);
    let resource_count = with_counts(resources.field, job_count.value, 0)?;
    let now = next_field(resources.rest, 4, 0, 2147483647, RANGE);
    let moment = with_counts(now.field, job_count.value, resource_count.value)?;
    Ok(Header {
        jobs: job_count.value,
        resources: resource_count.value,
        now: moment.value,
        last: moment,
    })
}
