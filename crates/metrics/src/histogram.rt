//! The samples of a histogram of times.

ghost use Rattle.std.specs.Prelude.{◌≡◌, ◌++◌, ◌∷◌, [], IfOk, OnOk, codes, string_bytes};
ghost use Rattle.metrics.specs.Histograms.{bucket_sample, bucket_samples, count_in, histogram_samples, told_count};

use crate::family::{Label, Sample, Suffix};
use crate::number::Number;
use base_types::NoMemory;
use std::alloc::Global;

/// How many times are at most a bound, and above the bound before it.
#[derive(Clone, Copy, Debug, PartialEq, Eq)]
pub struct Bucket {
    /// The bound, in microseconds.
    pub bound: u64,
    /// How many times.
    pub count: u64,
}

/// The samples of a histogram: those of the buckets, one of all times, the sum and the number of
/// the times. The bounds of the buckets have to rise; `above` counts the times above the last, and
/// `sum` is the sum of all times in microseconds. A sample of a bucket counts the times of the
/// buckets before it too. A count above `u64::MAX` is told as `u64::MAX`.
///
/// # Errors
///
/// `NoMemory` if an allocation failed.
pub fn histogram_samples(
    alloc: Global,
    buckets: &[Bucket],
    above: u64,
    sum: u64,
) -> Result<Vec<Sample>, NoMemory>
    ensures { IfOk result (λ samples. samples.items ≡ histogram_samples buckets.now above sum) }
{
    let mut samples = Vec::with_capacity(alloc, buckets.len().saturating_add(3))?;
    let counted = push_buckets(alloc, &mut samples, buckets)?;
    push_totals(alloc, &mut samples, counted.saturating_add(above), sum)?;
    Ok(samples)
}

/// Appends the samples of the buckets. Returns the count of the last.
fn push_buckets(
    alloc: Global,
    samples: &mut Vec<Sample>,
    buckets: &[Bucket],
) -> Result<u64, NoMemory>
    ensures { IfOk result (λ count. (count ≡ told_count (count_in buckets.now))
        × (samples.new.items ≡ samples.old.items ++ bucket_samples [] buckets.now)) }
{
    let mut count: u64 = 0;
    for bucket in buckets {
        count = count.saturating_add(bucket.count);
        let bound = format!(in alloc; "{}", Number::Micros(bucket.bound))?;
        push_bucket(alloc, samples, bound, count)?;
    }
    Ok(count)
}

/// Appends the bucket of all times, their sum and their number.
fn push_totals(
    alloc: Global,
    samples: &mut Vec<Sample>,
    count: u64,
    sum: u64,
) -> Result<(), NoMemory>
    ensures { OnOk result (samples.new.items ≡ samples.old.items
        ++ bucket_sample (codes "+Inf") count
        ∷ record { suffix = Suffix.Sum; labels = []; number = Number.Micros sum }
        ∷ record { suffix = Suffix.Count; labels = []; number = Number.Whole count }
        ∷ []) }
{
    push_bucket(alloc, samples, String::from_str(alloc, "+Inf")?, count)?;
    samples.push(Sample::new(Suffix::Sum, Vec::new(alloc), Number::Micros(sum)))?;
    samples.push(Sample::new(Suffix::Count, Vec::new(alloc), Number::Whole(count)))?;
    Ok(())
}

/// Appends the sample of a bucket with this bound.
fn push_bucket(
    alloc: Global,
    samples: &mut Vec<Sample>,
    bound: String,
    count: u64,
) -> Result<(), NoMemory>
    ensures { OnOk result (samples.new.items
        ≡ samples.old.items ++ bucket_sample (string_bytes bound) count ∷ []) }
{
    let labels = vec![in alloc; Label::new("le", bound)]?;
    samples.push(Sample::new(Suffix::Bucket, labels, Number::Whole(count)))?;
    Ok(())
}
