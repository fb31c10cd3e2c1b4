// Labels asked in turn and written one behind the other: what is answered of such a run.
#![tactic(auto)]

ghost use Rattle.std.specs.Prelude.{◌≡◌};
ghost use Rattle.run.specs.Packed.{packed_series, series_bytes};

use refusal::{Reason, Refusal};

// A run that was begun: it stopped before a label that was refused, so many labels being written in so many bytes, or all
// were written.
#[derive(Clone, Copy)]
pub enum Run {
    Stopped {
        labels: usize,
        bytes: usize,
        reason: Reason,
    },
    Done {
        labels: usize,
        bytes: usize,
    },
}

// What a run answers: how far it came, or why no label was asked, since a file, the code or the pack is refused.
pub type Series = Result<Run, Refusal>;

// The answer of a run as the one number that C gets: how many labels were written; of a stop, the label's own refusal, with
// how many were written as second detail.
pub fn packed_series(series: Series) -> usize
    ensures { result ≡ packed_series series }
{
    match series {
        Ok(Run::Done { labels, bytes: _ }) => refusal::packed_answer(Ok(labels)),
        Ok(
            Run::Stopped {
                labels,
                bytes: _,
                reason,
            },
        ) => {
            refusal::word_of(
                refusal::number_of(reason),
                0,
                labels,
                refusal::detail_of(reason),
            )
        }
        Err(refused) => refusal::packed_answer(Err(refused)),
    }
}

// How many bytes the labels of a run take; what was said before where none was asked.
pub fn bytes_of(series: Series, before: usize) -> usize
    ensures { result ≡ series_bytes series before }
{
    match series {
        Ok(Run::Done { labels: _, bytes }) => bytes,
        Ok(
            Run::Stopped {
                labels: _,
                bytes,
                reason: _,
            },
        ) => bytes,
        Err(_) => before,
    }
}
