//! Generated workloads. The hashes of their files are those of an independent program: `peers/workload.py 1 3` and
//! `peers/workload.py 1 24` print them. The counts follow from the rounds.

use super::{Play, Step, perform};
use std::test::Fail;

/// The hash of the image of each workload of the number 1, before it is served.
const NEW: &str = "ac2b99f28ab0832fde01ca7c2ff08e95dccc8209db93bd03fd75d53ffe0f2394";

/// A workload of three rounds: its summary, and the hashes of its files.
const SMALL: Play = Play {
    failing: &[],
    steps: &[
        Step::Ends(
            "generate 1 3 image script noise",
            0,
            "events 37\ndone 8\nsigned 3\nrefused 0\nlength 9\nimage *\n",
        ),
        Step::WasCalled(0, 3, 1),
        Step::HasHash("image", NEW),
        Step::HasHash(
            "script",
            "5997f23c3b835a87bd2da1cdcf7f7759eb553c4d2cce0919d9c572bf17169bcd",
        ),
        Step::HasHash(
            "noise",
            "805f8e4f97cd4304b227464778e56d60188a622fdf636cca0f21a4bd5370e0fa",
        ),
    ],
};

/// A workload of the most rounds, made twice with the same image. When it is served, the image is the one that both
/// summaries name.
const LARGE: Play = Play {
    failing: &[],
    steps: &[
        Step::Ends("generate 1 24 image script noise", 0, LARGE_SUMMARY),
        Step::HasHash("image", NEW),
        Step::HasHash(
            "script",
            "41aa27985ab159c1fd23923a11f4da349bede7afe1a577ee470dea5532144336",
        ),
        Step::HasHash(
            "noise",
            "0ce57cec27f0bd4cdac5c7b0b741b837dc85ac746698f4817061cd17cf6fc743",
        ),
        Step::Ends("generate 1 24 again script noise", 0, LARGE_SUMMARY),
        Step::Matches("again", "image"),
        Step::Ends("run image script noise", 0, "booted\ndone 1 2\n**"),
        Step::IsSummarised("image"),
    ],
};

const LARGE_SUMMARY: &str = "events 247\ndone 29\nsigned 24\nrefused 0\nlength 30\nimage *\n";

/// Words that are no command: no rounds or too many, numbers with leading zeros or too many bits, and an empty name.
const NO_WORDS: Play = Play {
    failing: &[],
    steps: &[
        Step::Ends("generate 1 25 image script noise", 2, "words\n"),
        Step::Ends("generate 1 0 image script noise", 2, "words\n"),
        Step::Ends("generate 1 03 image script noise", 2, "words\n"),
        Step::Ends("generate 01 3 image script noise", 2, "words\n"),
        Step::Ends("generate 4294967296 3 image script noise", 2, "words\n"),
        Step::Ends("generate 1 3 image script ", 2, "words\n"),
        Step::Ends("generate 1 3 image script", 2, "words\n"),
        Step::WasCalled(0, 0, 7),
    ],
};

#[test]
fn workloads_are_served(rt: HostRuntime) -> Result<(), Fail> {
    perform(&rt, &[], &[SMALL, LARGE])
}

#[test]
fn other_words_make_no_workload(rt: HostRuntime) -> Result<(), Fail> {
    perform(&rt, &[], &[NO_WORDS])
}
