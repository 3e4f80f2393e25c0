// The job reader and the job writer for a C host.
ghost use Rattle.geometry.specs.Strip.{strip};
ghost use Rattle.job.specs.Calls.{ReadContract, WriteContract};

use crate::handed::hand_over;
use geometry::strip::Strip;

// The marks of a job in the three lists; 1 to 5 or 9 if the job or a list is refused. `count` is set at every return, to 0 at a
// refusal.
#[unsafe(no_mangle)]
pub extern "C" fn strip_read(
    job: &[u8],
    places: &mut [i16],
    lengths: &mut [u8],
    weights: &mut [u16],
    count: &mut usize,
) -> u8
    ensures { ReadContract
        job.now
        (strip places.old lengths.old weights.old)
        (strip places.new lengths.new weights.new)
        (record { number = result; count = count.new }) }
{
    hand_over(job::reader::read(job, places, lengths, weights), 0, count)
}

// The job of the three lists in `job`; 6 to 9 if a check is not passed. `length` is set at every return, to 0 at a refusal.
#[unsafe(no_mangle)]
pub extern "C" fn strip_write(
    places: &[i16],
    lengths: &[u8],
    weights: &[u16],
    job: &mut [u8],
    length: &mut usize,
) -> u8
    ensures { WriteContract
        (strip places.now lengths.now weights.now) job.old
        job.new (record { number = result; length = length.new }) }
{
    let strip = Strip {
        places,
        lengths,
        weights,
    };
    hand_over(job::writer::write(strip, job), 0, length)
}
