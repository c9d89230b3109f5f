//! The application machine: what the code of layers 2 and 3 is and does, and how it is written as text.
//!
//! This crate owns the run of a code on an input and on the secrets that its layer may read, who may watch it and the line
//! that tells of a step, the reading of what code asks for by its output, the assembler and the disassembler, and the text
//! of the secrets with which a code is tried. The machine's instructions and their bytes are defined in `mb_model`, and its
//! types are offered here again.
#![tactic(auto)]

mod action;
mod assembling;
mod checking;
mod disassembling;
mod encoding;
mod environment;
mod fetching;
mod given;
mod keyword;
mod laws;
mod lines;
mod machine;
mod plain;
mod running;
mod secret_texts;
mod secrets;
mod table;
mod tracing;
mod watching;

pub use action::{Action, Demand, Demands, action_in, read_action};
pub use assembling::{ASSEMBLY_LIMIT, AsmEnd, assemble};
pub use disassembling::{DisasmEnd, disassemble, put_line, put_numbered, put_words};
pub use environment::Readable;
pub use fetching::fetch;
pub use keyword::{Jump, Keyword};
pub use laws::{
    assemblies_are_clear, listings_assemble, numbers_are, runs_end_once, runs_see_nothing_else,
    traces_are_true,
};
pub use lines::{Said, is_label_name, read_line};
pub use mb_model::{
    AppEnd, CALL_LIMIT, Instruction, MEMORY_LENGTH, Name, OUTPUT_LIMIT, Opcode, Operation, Plain,
    STACK_LIMIT, Trap,
};
pub use running::{CodeEnd, run_app, run_code};
pub use secret_texts::{read_secrets, write_secrets};
pub use tracing::step_line;
pub use watching::{NextStep, Nobody, Watcher};
