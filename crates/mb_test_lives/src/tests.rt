//! Whole lives of devices, as tables of plays: words one after another, how each ends, and what files then hold. They
//! expect values of an independent program.

mod calls;
mod chains;
mod cutat;
mod lives;
mod migration;
mod rows;
mod segments;
mod succession;
mod trusts;
mod workloads;

use mb_test_plays::{
    A_NEW_DEVICE, A_WHOLE_LIFE, Content, Cut, Given, ITS_CHAIN, ITS_LISTING, Part, Play, Step,
    TwoCuts, file_of, store,
};
use mb_test_program::{births, ends, go_on, go_through, perform};
