//! The table of the commands: their names, the words after each name, and what `--help` says of them.

ghost use Rattle.std.specs.Prelude.{◌≡◌, ◌+◌, ◌≤◌, ◌∷◌, ◌++◌, List, MatchOption, flat_map, length, map, string_bytes};
ghost use Rattle.arrayvec.specs.ArrayVec.{array_vec_len};
ghost use Rattle.mb_console.specs.Words.{Argument, IsCall, given_argument};
ghost use Rattle.mb_top.specs.Usage.{AllFit, group_text, usage_line};

use arrayvec::ArrayVec;
use mb_console::{Arguments, Kind, WORD_LIMIT, Word, arguments_of};
use mb_model::CUT_LIMIT;
use mb_tools_device::ROUND_LIMIT;
use mb_tools_hss::LEVEL_LIMIT;

/// The commands of the program.
#[derive(Clone, Copy)]
pub enum Command {
    Keygen,
    Showkey,
    Factory,
    Hsskeygen,
    Showmaker,
    Endorse,
    Showorder,
    Ordered,
    Sign,
    Countersign,
    Cosign,
    Showimage,
    Run,
    Rehearse,
    Cutat,
    Chain,
    Attach,
    Migrate,
    Generate,
    Verify,
    History,
    Audit,
    Trust,
    Endorsed,
    Register,
    Enrol,
    Devices,
    Fleet,
    Asm,
    Disasm,
    Showcode,
    Appcode,
    Callcode,
    App,
}

const CHAIN: Word = ("CHAIN", Kind::File);

const CODE: Word = ("CODE", Kind::File);

const COUNT: Word = (
    "COUNT",
    Kind::Number {
        least: 1,
        most: CUT_LIMIT,
    },
);

const DRAFT: Word = ("DRAFT", Kind::File);

const ENDORSEMENT: Word = ("ENDORSEMENT", Kind::File);

const FILL: Word = ("FILL", Kind::Hex);

const IMAGE: Word = ("IMAGE", Kind::File);

const INPUT: Word = ("INPUT", Kind::File);

const ITEMS: Word = ("ITEMS", Kind::File);

const KEY: Word = ("KEY", Kind::File);

const KEYNUMBER: Word = (
    "KEYNUMBER",
    Kind::Number {
        least: 0,
        most: u32::MAX,
    },
);

const LAYER: Word = ("LAYER", Kind::Number { least: 2, most: 3 });

const LEVELS: Word = (
    "LEVELS",
    Kind::Number {
        least: 1,
        most: LEVEL_LIMIT as u32,
    },
);

const NEXT: Word = ("NEXT", Kind::File);

const NOISE: Word = ("NOISE", Kind::File);

const NUMBER: Word = (
    "NUMBER",
    Kind::Number {
        least: 0,
        most: u32::MAX,
    },
);

const ORDER: Word = ("ORDER", Kind::File);

const OUT: Word = ("OUT", Kind::File);

const OWNER: Word = ("OWNER", Kind::File);

const POLICY: Word = ("POLICY", Kind::File);

const PUBLIC: Word = ("PUBLIC", Kind::File);

const REGISTER: Word = ("REGISTER", Kind::File);

const ROOT: Word = ("ROOT", Kind::File);

const ROUNDS: Word = (
    "ROUNDS",
    Kind::Number {
        least: 1,
        most: ROUND_LIMIT,
    },
);

const SCRIPT: Word = ("SCRIPT", Kind::File);

const SECRETS: Word = ("SECRETS", Kind::File);

const STATEMENT: Word = ("STATEMENT", Kind::File);

const STEPS: Word = (
    "STEPS",
    Kind::Number {
        least: 1,
        most: 10_000_000,
    },
);

const TEXT: Word = ("TEXT", Kind::File);

/// A command, its name, the words after the name, and what it does.
pub type Row = (Command, &'static str, &'static [Word], &'static str);

/// A group of commands: what they are for, and their rows.
pub type Group = (&'static str, &'static [Row]);

/// The commands by what they are for, in the order in which `--help` lists them.
pub const GROUPS: [Group; 5] = [
    (
        "to make keys and devices",
        &[
            (
                Command::Keygen,
                "keygen",
                &[NOISE, KEY, PUBLIC],
                "
      makes an officer's key from the noise, writes its file and its public key, and prints the public
      key's hash",
            ),
            (
                Command::Showkey,
                "showkey",
                &[KEY],
                "
      prints the hash of the public key of an officer's key, its next index, and how many indices are left",
            ),
            (
                Command::Factory,
                "factory",
                &[NOISE, KEY, OWNER, CODE, IMAGE],
                "
      makes a device of this owner and code from the noise, signs its birth by the maker's key, writes
      that key with its next index marked as used and the device's image, and prints the device's serial",
            ),
            (
                Command::Hsskeygen,
                "hsskeygen",
                &[NOISE, LEVELS, KEY, PUBLIC],
                "
      makes a maker's HSS key of 1 to 8 levels from the noise, writes its file and its public key, and
      prints the public key's hash",
            ),
            (
                Command::Showmaker,
                "showmaker",
                &[KEY],
                "
      prints the hash of the public key of a maker's HSS key, its levels, its next number, and how many
      numbers are left",
            ),
            (
                Command::Endorse,
                "endorse",
                &[KEY, ROOT, OUT],
                "
      endorses the public key in ROOT by a maker's HSS key, writes that key with one more of its numbers
      used and the endorsement, and prints the number",
            ),
        ],
    ),
    (
        "to give orders",
        &[
            (
                Command::Showorder,
                "showorder",
                &[ORDER],
                "
      prints what an order line says, line by line, and verifies nothing",
            ),
            (
                Command::Ordered,
                "ordered",
                &[PUBLIC, ORDER],
                "
      names the signatures of an order line that verify under the public key",
            ),
            (
                Command::Sign,
                "sign",
                &[KEY, DRAFT, OUT],
                "
      signs the order of the draft, writes the key with its next index marked as used and the order as a
      line, and prints the index",
            ),
            (
                Command::Countersign,
                "countersign",
                &[KEY, LAYER, ORDER, OUT],
                "
      adds the countersignature of the owner of layer 2 or 3 to an order line, writes the key with its
      next index marked as used and the order as a line, and prints the index",
            ),
            (
                Command::Cosign,
                "cosign",
                &[KEY, LAYER, ORDER, DRAFT, OUT],
                "
      countersigns as countersign does, if the order line says what the draft says, and else refuses",
            ),
        ],
    ),
    (
        "to serve a device",
        &[
            (
                Command::Showimage,
                "showimage",
                &[IMAGE],
                "
      prints what IMAGE says of its device: serial, configuration number, length of the log, layers, names
      of secrets, keys, and how often each key can still sign",
            ),
            (
                Command::Run,
                "run",
                &[IMAGE, SCRIPT, NOISE],
                "
      gives the device of IMAGE the events of SCRIPT, writes the new image over IMAGE, and prints a line
      for each reply",
            ),
            (
                Command::Rehearse,
                "rehearse",
                &[IMAGE, SCRIPT, NOISE],
                "
      serves SCRIPT on the device of IMAGE and writes no file; prints a line for each reply, without the
      values of secrets and without statements, and which event was the first that was not obeyed",
            ),
            (
                Command::Cutat,
                "cutat",
                &[IMAGE, SCRIPT, NOISE, COUNT, FILL],
                "
      serves SCRIPT on the device of IMAGE, and cuts power in the write with the number COUNT, 1 to 100,000,
      of its last event; prints which state that leaves, and writes no file; FILL is what the write leaves,
      1 to 16 bytes in hexadecimal",
            ),
            (
                Command::Chain,
                "chain",
                &[IMAGE, OUT],
                "
      writes the chain of the device's log, and prints how many entries it has",
            ),
            (
                Command::Attach,
                "attach",
                &[CHAIN, STATEMENT, OUT],
                "
      attaches a statement to the chain, and prints how many entries that chain has",
            ),
            (
                Command::Migrate,
                "migrate",
                &[IMAGE, OUT],
                "
      writes the image of IMAGE's state in the current form; IMAGE may have the earlier form; prints the
      new image's hash",
            ),
            (
                Command::Generate,
                "generate",
                &[NUMBER, ROUNDS, IMAGE, SCRIPT, NOISE],
                "
      makes the workload of NUMBER with ROUNDS rounds, 1 to 24, writes its files, serves it, and prints a
      summary",
            ),
        ],
    ),
    (
        "to verify what a device says of itself",
        &[
            (
                Command::Verify,
                "verify",
                &[ROOT, CHAIN, KEYNUMBER],
                "
      verifies the chain under the maker's public key, and lists every configuration of code that could have
      used the key with this number",
            ),
            (
                Command::History,
                "history",
                &[ROOT, CHAIN],
                "
      verifies the chain under the maker's public key, and tells the device's history entry by entry, with
      its serial, its keys, and who signed the chain's statement",
            ),
            (
                Command::Audit,
                "audit",
                &[IMAGE, ROOT, CHAIN, KEYNUMBER],
                "
      verifies the chain, and compares what it lists for the key with the log of the device of IMAGE",
            ),
            (
                Command::Trust,
                "trust",
                &[ROOT, CHAIN, KEYNUMBER, POLICY],
                "
      verifies the chain, and then judges by the policy each configuration that could have used the key",
            ),
            (
                Command::Endorsed,
                "endorsed",
                &[PUBLIC, ROOT, ENDORSEMENT],
                "
      verifies the endorsement of the public key in ROOT under the public key of a maker's HSS key",
            ),
            (
                Command::Register,
                "register",
                &[OUT],
                "
      writes a register of no devices, and prints how many that has",
            ),
            (
                Command::Enrol,
                "enrol",
                &[ROOT, REGISTER, CHAIN],
                "
      shows a register of the maker's devices one chain, writes the register if it changes, and prints the
      answer",
            ),
            (
                Command::Devices,
                "devices",
                &[REGISTER],
                "
      lists the devices of a register, with what each has shown last",
            ),
            (
                Command::Fleet,
                "fleet",
                &[ROOT, REGISTER, ITEMS],
                "
      serves the items, chains and questions, over a register of the maker's devices, writes the register,
      and prints the answers",
            ),
        ],
    ),
    (
        "to write applications",
        &[
            (
                Command::Asm,
                "asm",
                &[TEXT, OUT],
                "
      assembles the text, writes its code, and prints how many bytes that has",
            ),
            (
                Command::Disasm,
                "disasm",
                &[CODE, OUT],
                "
      lists the code, writes its text, and prints how many lines that has",
            ),
            (
                Command::Showcode,
                "showcode",
                &[CODE],
                "
      lists the code with labels and the place of each instruction",
            ),
            (
                Command::Appcode,
                "appcode",
                &[CODE, INPUT, STEPS],
                "
      runs the code on the bytes of INPUT for at most STEPS steps, 1 to 10,000,000, as layer 3 of a device
      without secrets, and prints how it ends",
            ),
            (
                Command::Callcode,
                "callcode",
                &[CODE, SECRETS, INPUT, NEXT],
                "
      calls the code on the bytes of INPUT as that of layer 3 of a device with the secrets of the text,
      writes the secrets afterwards, and prints the answer",
            ),
            (
                Command::App,
                "app",
                &[IMAGE, LAYER, INPUT, STEPS],
                "
      runs the code of layer 2 or 3 of the device of IMAGE on the bytes of INPUT for at most STEPS steps,
      1 to 10,000,000, and prints how it ends",
            ),
        ],
    ),
];

/// A command, and what the words after its name mean.
#[derive(Drop)]
pub struct Call<'a> {
    pub command: Command,
    pub arguments: Arguments<'a>,
}

/// The command of these groups that the words call; `None` if they call none. A command has at most 8 words after its
/// name.
pub fn call_in<'a>(groups: &[Group], words: &'a [String]) -> Option<Call<'a>>
    requires { AllFit (λ row. length row.2.now) (flat_map (λ group. group.1.now) groups.now) }
    ensures { MatchOption result
        ((command : Command) (arguments : List Argument) → IsCall (flat_map (λ group. map (λ row. (row.0, row.1.now, map (λ word. word.1) row.2.now)) group.1.now) groups.now) (map string_bytes words.now) command arguments → ⊥)
        (λ call. IsCall (flat_map (λ group. map (λ row. (row.0, row.1.now, map (λ word. word.1) row.2.now)) group.1.now) groups.now) (map string_bytes words.now) call.command (map given_argument call.arguments.items)) }
{
    let Some((group, groups)) = groups.split_first() else {
        return None;
    };
    match call_among(group.1, words) {
        Some(call) => Some(call),
        None => call_in(groups, words),
    }
}

/// The command among these rows that the words call; `None` if they call none.
fn call_among<'a>(rows: &[Row], words: &'a [String]) -> Option<Call<'a>>
    requires { AllFit (λ row. length row.2.now) rows.now }
    ensures { MatchOption result
        ((command : Command) (arguments : List Argument) → IsCall (map (λ row. (row.0, row.1.now, map (λ word. word.1) row.2.now)) rows.now) (map string_bytes words.now) command arguments → ⊥)
        (λ call. IsCall (map (λ row. (row.0, row.1.now, map (λ word. word.1) row.2.now)) rows.now) (map string_bytes words.now) call.command (map given_argument call.arguments.items)) }
{
    let Some((row, rows)) = rows.split_first() else {
        return None;
    };
    match arguments_of(row.1, row.2, words) {
        Some(arguments) => Some(Call {
            command: row.0,
            arguments,
        }),
        None => call_among(rows, words),
    }
}

/// The most bytes of the text of `--help`.
pub const USAGE_LIMIT: usize = 8192;

/// The text of `--help`, which takes no memory.
pub type Usage = ArrayVec<u8, USAGE_LIMIT>;

/// Appends what `--help` says of the commands of these groups, for which there is room.
pub fn put_groups(text: &mut Usage, groups: &[Group])
    requires { array_vec_len text.old + length (flat_map (λ group. group_text group.0.now (flat_map (λ row. usage_line row.1.now (flat_map (λ word. 32 ∷ word.0.now) row.2.now) row.3.now) group.1.now)) groups.now) ≤ USAGE_LIMIT }
    ensures { text.new.items ≡ text.old.items ++ flat_map (λ group. group_text group.0.now (flat_map (λ row. usage_line row.1.now (flat_map (λ word. 32 ∷ word.0.now) row.2.now) row.3.now) group.1.now)) groups.now }
{
    let Some((group, groups)) = groups.split_first() else {
        return;
    };
    put_group(text, group);
    put_groups(text, groups);
}

/// Appends what a group of commands is for, and what `--help` says of each, for which there is room.
fn put_group(text: &mut Usage, group: &Group)
    requires { array_vec_len text.old + length (group_text group.now.0.now (flat_map (λ row. usage_line row.1.now (flat_map (λ word. 32 ∷ word.0.now) row.2.now) row.3.now) group.now.1.now)) ≤ USAGE_LIMIT }
    ensures { text.new.items ≡ text.old.items ++ group_text group.now.0.now (flat_map (λ row. usage_line row.1.now (flat_map (λ word. 32 ∷ word.0.now) row.2.now) row.3.now) group.now.1.now) }
{
    put(text, "\n");
    put(text, group.0);
    put(text, ":\n");
    put_rows(text, group.1);
}

/// Appends what `--help` says of these commands, for which there is room.
fn put_rows(text: &mut Usage, rows: &[Row])
    requires { array_vec_len text.old + length (flat_map (λ row. usage_line row.1.now (flat_map (λ word. 32 ∷ word.0.now) row.2.now) row.3.now) rows.now) ≤ USAGE_LIMIT }
    ensures { text.new.items ≡ text.old.items ++ flat_map (λ row. usage_line row.1.now (flat_map (λ word. 32 ∷ word.0.now) row.2.now) row.3.now) rows.now }
{
    let Some((row, rows)) = rows.split_first() else {
        return;
    };
    put_row(text, row);
    put_rows(text, rows);
}

/// Appends what `--help` says of a command, for which there is room.
fn put_row(text: &mut Usage, row: &Row)
    requires { array_vec_len text.old + length (usage_line row.now.1.now (flat_map (λ word. 32 ∷ word.0.now) row.now.2.now) row.now.3.now) ≤ USAGE_LIMIT }
    ensures { text.new.items ≡ text.old.items ++ usage_line row.now.1.now (flat_map (λ word. 32 ∷ word.0.now) row.now.2.now) row.now.3.now }
{
    put(text, "  miniboot ");
    put(text, row.1);
    put_words(text, row.2);
    put(text, row.3);
    put(text, "\n");
}

/// Appends the words as they are shown, a space before each, for which there is room.
fn put_words(text: &mut Usage, words: &[Word])
    requires { array_vec_len text.old + length (flat_map (λ word. 32 ∷ word.0.now) words.now) ≤ USAGE_LIMIT }
    ensures items { text.new.items ≡ text.old.items ++ flat_map (λ word. 32 ∷ word.0.now) words.now }
    ensures length { array_vec_len text.new ≡ array_vec_len text.old + length (flat_map (λ word. 32 ∷ word.0.now) words.now) }
{
    let Some((word, words)) = words.split_first() else {
        return;
    };
    put(text, " ");
    put(text, word.0);
    put_words(text, words);
}

/// Appends a text, for which there is room.
pub fn put(text: &mut Usage, words: &str)
    requires { array_vec_len text.old + length words.now ≤ USAGE_LIMIT }
    ensures items { text.new.items ≡ text.old.items ++ words.now }
    ensures length { array_vec_len text.new ≡ array_vec_len text.old + length words.now }
{
    let _fits = text.try_extend_from_slice(words.as_bytes());
}
