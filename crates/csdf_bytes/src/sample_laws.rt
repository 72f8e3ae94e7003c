//! Laws of raw samples.

ghost use Rattle.csdf_bytes.specs.SampleLaws.{SampleReadsAdd, WrittenSamplesReadBack};

/// A law: the samples that are written for numbers of the format are these numbers.
pub fn written_samples_read_back()
    ensures { WrittenSamplesReadBack }
{}

/// A law: what two reads of a stream give is what one read of all their bytes gives. So what was
/// read so far are the samples of the bytes so far.
pub fn sample_reads_add()
    ensures { SampleReadsAdd }
{}
