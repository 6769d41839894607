//! The tables of a list of codes.

ghost use Rattle.kh_runs.specs.Told.{seen};
ghost use Rattle.line_answers.specs.ListRuns.{IsListRun};
ghost use Rattle.line_answers.specs.Scans.{IsTextReply, sizes_of};

use crate::replies::reply_to_bytes;
use kh_io::{Sink, Source};
use kh_runs::{Reply, Status};
use kh_types::NoMemory;
use line_answers::{Answering, answer_list};
use prime_field::FieldSize;
use std::alloc::Global;
use word_line::Fields;

/// All four fields, from the smallest up.
const ALL_FIELDS: [FieldSize; 4] = [
    FieldSize::TWO,
    FieldSize::THREE,
    FieldSize::FIVE,
    FieldSize::SEVEN,
];

/// Answers the code of a line by a scan.
#[derive(Clone, Copy)]
struct Scanning;

impl Answering for Scanning {
    ghost use Rattle.std.specs.Prelude.{◌≤◌, length, IfOk};
    ghost use Rattle.kh_types.specs.declared.limits.TheConstants.{INPUT_BYTES};

    ghost answers = { λ _ field bytes reply. IsTextReply field bytes reply };

    fn reply(&self, alloc: Global, field: FieldSize, bytes: &[u8]) -> Result<Reply, NoMemory>
        requires { length bytes.now ≤ INPUT_BYTES }
        ensures { IfOk result (IsTextReply field bytes.now) }
    {
        reply_to_bytes(alloc, field, bytes)
    }
}

/// Answers each line of a source over each of the fields.
pub fn answer_each<S: Source, K: Sink>(
    alloc: Global,
    fields: Fields,
    source: &mut S,
    sink: &mut K,
) -> Status
    ensures { IsListRun IsTextReply (sizes_of fields)
        (seen (S.left source.old) (S.faults source.old)) (seen (S.left source.new) (S.faults source.new))
        (seen (K.written sink.old) (K.faults sink.old)) (seen (K.written sink.new) (K.faults sink.new)) result }
{
    match fields {
        Fields::One(field) => answer_list(alloc, &Scanning, &[field], source, sink),
        Fields::All => answer_list(alloc, &Scanning, &ALL_FIELDS, source, sink),
    }
}
