//! The commands, as tables of plays: what each makes, against values of an independent program, and how it ends.

mod applications;
mod called;
mod devices;
mod devices_shown;
mod endorsements;
mod enrolments;
mod failures;
mod fleet;
mod help;
mod keys;
mod limits;
mod policies;
mod runs;
mod short_files;
mod short_orders;
mod shown;
mod shown_codes;
mod sign;
mod statuses;
mod trials;

use mb_test_plays::{
    A_NEW_DEVICE, A_WHOLE_LIFE, ANOTHER_DEVICE, Access, Content, FOREIGN_ENDORSEMENT, FOREIGN_KEY,
    Given, IMAGE, ITS_CHAIN, MAKER, OWNER, Part, Play, SERIAL, ShortFile, Step, Told, ZEROS_KEY,
    ZEROS_PUBLIC, file_of, host_with, store,
};
use mb_test_program::{births, ends, go_on, go_through, perform};
