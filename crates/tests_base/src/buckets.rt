// A token bucket, call by call.
use dl_kinds::Moment;
use rate_tokens::{Bucket, Take};
use test_lines::{Output, u32_at, u64_at};

/// What a line asks of the bucket.
#[derive(Clone, Copy)]
pub enum BucketLine {
    Begin,
    Rate,
    Take,
    Credit,
}

/// A full bucket of a rate at a moment.
pub fn bucket_of(rest: &str) -> Bucket {
    Bucket::new(u32_at(rest, 0) as u64, Moment(u64_at(rest, 1)))
}

fn add_take(bucket: &mut Bucket, want: u32, now: Moment, output: &mut Output) {
    match bucket.take(want.max(1), now) {
        Take::Go(bytes) => output.counted("go ", bytes as u64),
        Take::Hold(wait) => output.counted("hold ", wait),
    }
}

fn add_credit(bucket: &Bucket, now: Moment, output: &mut Output) {
    output.number(bucket.credit(now));
    output.counted(", in ", bucket.wait(now));
    output.text(" ms");
}

fn add_rate(bucket: &Bucket, output: &mut Output) {
    output.number(bucket.rate());
    output.text(" a second");
}

/// Adds what comes of a line on the bucket.
pub fn add_bucket_line(bucket: &mut Bucket, kind: BucketLine, rest: &str, output: &mut Output) {
    let now = Moment(u64_at(rest, 1));
    match kind {
        BucketLine::Begin => {
            *bucket = bucket_of(rest);
            add_rate(bucket, output);
        }
        BucketLine::Rate => {
            bucket.set_rate(u32_at(rest, 0) as u64, now);
            add_rate(bucket, output);
        }
        BucketLine::Take => add_take(bucket, u32_at(rest, 0), now, output),
        BucketLine::Credit => add_credit(bucket, Moment(u64_at(rest, 0)), output),
    }
}
