//! The program goes through plays of its own, or goes on with others.

use mb_board::SimBoard;
use mb_host::MemoryHost;
use mb_test_plays::{Given, Play, Program, Step};
use std::alloc::Global;
use std::test::Fail;

/// The program, and where its memory is taken.
#[derive(Drop)]
pub(crate) struct Miniboot {
    pub(crate) alloc: Global,
}

impl Program for Miniboot {
    fn alloc(&self) -> Global {
        self.alloc
    }

    fn answer(&self, words: Vec<String>, host: &mut MemoryHost) -> u8 {
        let mut board = SimBoard::new(self.alloc);
        mb_top::program(self.alloc, Ok(words), host, &mut board)
    }
}

/// The program, which takes its memory from this runtime.
pub(crate) fn program_of(rt: &impl AllocGlobal) -> Miniboot {
    Miniboot { alloc: rt.alloc() }
}

/// Each play goes as it says, over a host of its own with these files.
pub fn perform(rt: &impl AllocGlobal, files: &[Given], plays: &[Play]) -> Result<(), Fail> {
    mb_test_plays::perform(&program_of(rt), files, plays)
}

/// The steps go as they say.
pub fn go_on(rt: &impl AllocGlobal, host: &mut MemoryHost, steps: &[Step]) -> Result<(), Fail> {
    mb_test_plays::go_on(&program_of(rt), host, steps)
}

/// The parts go as their steps say, one after another.
pub fn go_through(
    rt: &impl AllocGlobal,
    host: &mut MemoryHost,
    parts: &[&[Step]],
) -> Result<(), Fail> {
    mb_test_plays::go_through(&program_of(rt), host, parts)
}

/// The words end with this status and print these lines.
pub fn ends(
    rt: &impl AllocGlobal,
    host: &mut MemoryHost,
    words: &str,
    status: u8,
    lines: &str,
) -> Result<(), Fail> {
    mb_test_plays::ends(&program_of(rt), host, words, status, lines)
}
