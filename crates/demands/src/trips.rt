// Both round trips: a job that is read and written back, and marks that are written and read back.
ghost use Rattle.geometry.specs.Strip.{strip as lists, lists_of};
ghost use Rattle.demands.specs.Trips.{trip_of, JobThereAndBack, MarksThereAndBack};

use geometry::refusal::Refusal;
use geometry::strip::Strip;

// What a round trip hands back: the reader's count of marks and the writer's length of the job, each or its refusal. Where the first
// call refuses, the second is not made and has its refusal.
#[derive(Clone, Copy, Debug, PartialEq, Eq)]
pub struct Trip {
    pub read: Result<usize, Refusal>,
    pub written: Result<usize, Refusal>,
}

// Reads a job, and writes the marks into the copy if the reader accepts it.
pub fn job_there_and_back(
    job: &[u8],
    places: &mut [i16],
    lengths: &mut [u8],
    weights: &mut [u16],
    copy: &mut [u8],
) -> Trip
    ensures { JobThereAndBack
        job.now
        (lists places.old lengths.old weights.old)
        (lists places.new lengths.new weights.new)
        copy.old copy.new (trip_of result) }
{
    let read = job::reader::read(job, places, lengths, weights);
    let count = match read {
        Ok(count) => count,
        Err(refusal) => return Trip {
            read,
            written: Err(refusal),
        },
    };
    let strip = Strip {
        places: &places[..count],
        lengths: &lengths[..count],
        weights: &weights[..count],
    };
    let written = job::writer::write(strip, copy);
    Trip { read, written }
}

// Writes marks as a job, and reads the job into the three lists if the writer accepts the marks.
pub fn marks_there_and_back(
    strip: Strip,
    job: &mut [u8],
    places_back: &mut [i16],
    lengths_back: &mut [u8],
    weights_back: &mut [u16],
) -> Trip
    ensures { MarksThereAndBack
        (lists_of strip.entry)
        job.old job.new
        (lists places_back.old lengths_back.old weights_back.old)
        (lists places_back.new lengths_back.new weights_back.new)
        (trip_of result) }
{
    let written = job::writer::write(strip, job);
    let length = match written {
        Ok(length) => length,
        Err(refusal) => return Trip {
            read: Err(refusal),
            written,
        },
    };
    let read = job::reader::read(&job[..length], places_back, lengths_back, weights_back);
    Trip { read, written }
}
