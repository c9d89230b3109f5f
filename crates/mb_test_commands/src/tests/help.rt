//! What `--help` and `--version` print, and how other words like them end.

use super::{Play, Step, perform};
use std::test::Fail;

/// The text of `--help`. `checks/documents.sh` finds it in docs/use/commands.md.
const HELP: &str =
    "miniboot simulates a secure coprocessor, and provides the tools of its maker, owners and verifiers.

to make keys and devices:
  miniboot keygen NOISE KEY PUBLIC
      makes an officer's key from the noise, writes its file and its public key, and prints the public
      key's hash
  miniboot showkey KEY
      prints the hash of the public key of an officer's key, its next index, and how many indices are left
  miniboot factory NOISE KEY OWNER CODE IMAGE
      makes a device of this owner and code from the noise, signs its birth by the maker's key, writes
      that key with its next index marked as used and the device's image, and prints the device's serial
  miniboot hsskeygen NOISE LEVELS KEY PUBLIC
      makes a maker's HSS key of 1 to 8 levels from the noise, writes its file and its public key, and
      prints the public key's hash
  miniboot showmaker KEY
      prints the hash of the public key of a maker's HSS key, its levels, its next number, and how many
      numbers are left
  miniboot endorse KEY ROOT OUT
      endorses the public key in ROOT by a maker's HSS key, writes that key with one more of its numbers
      used and the endorsement, and prints the number

to give orders:
  miniboot showorder ORDER
      prints what an order line says, line by line, and verifies nothing
  miniboot ordered PUBLIC ORDER
      names the signatures of an order line that verify under the public key
  miniboot sign KEY DRAFT OUT
      signs the order of the draft, writes the key with its next index marked as used and the order as a
      line, and prints the index
  miniboot countersign KEY LAYER ORDER OUT
      adds the countersignature of the owner of layer 2 or 3 to an order line, writes the key with its
      next index marked as used and the order as a line, and prints the index
  miniboot cosign KEY LAYER ORDER DRAFT OUT
      countersigns as countersign does, if the order line says what the draft says, and else refuses

to serve a device:
  miniboot showimage IMAGE
      prints what IMAGE says of its device: serial, configuration number, length of the log, layers, names
      of secrets, keys, and how often each key can still sign
  miniboot run IMAGE SCRIPT NOISE
      gives the device of IMAGE the events of SCRIPT, writes the new image over IMAGE, and prints a line
      for each reply
  miniboot rehearse IMAGE SCRIPT NOISE
      serves SCRIPT on the device of IMAGE and writes no file; prints a line for each reply, without the
      values of secrets and without statements, and which event was the first that was not obeyed
  miniboot cutat IMAGE SCRIPT NOISE COUNT FILL
      serves SCRIPT on the device of IMAGE, and cuts power in the write with the number COUNT, 1 to 100,000,
      of its last event; prints which state that leaves, and writes no file; FILL is what the write leaves,
      1 to 16 bytes in hexadecimal
  miniboot chain IMAGE OUT
      writes the chain of the device's log, and prints how many entries it has
  miniboot attach CHAIN STATEMENT OUT
      attaches a statement to the chain, and prints how many entries that chain has
  miniboot migrate IMAGE OUT
      writes the image of IMAGE's state in the current form; IMAGE may have the earlier form; prints the
      new image's hash
  miniboot generate NUMBER ROUNDS IMAGE SCRIPT NOISE
      makes the workload of NUMBER with ROUNDS rounds, 1 to 24, writes its files, serves it, and prints a
      summary

to verify what a device says of itself:
  miniboot verify ROOT CHAIN KEYNUMBER
      verifies the chain under the maker's public key, and lists every configuration of code that could have
      used the key with this number
  miniboot history ROOT CHAIN
      verifies the chain under the maker's public key, and tells the device's history entry by entry, with
      its serial, its keys, and who signed the chain's statement
  miniboot audit IMAGE ROOT CHAIN KEYNUMBER
      verifies the chain, and compares what it lists for the key with the log of the device of IMAGE
  miniboot trust ROOT CHAIN KEYNUMBER POLICY
      verifies the chain, and then judges by the policy each configuration that could have used the key
  miniboot endorsed PUBLIC ROOT ENDORSEMENT
      verifies the endorsement of the public key in ROOT under the public key of a maker's HSS key
  miniboot register OUT
      writes a register of no devices, and prints how many that has
  miniboot enrol ROOT REGISTER CHAIN
      shows a register of the maker's devices one chain, writes the register if it changes, and prints the
      answer
  miniboot devices REGISTER
      lists the devices of a register, with what each has shown last
  miniboot fleet ROOT REGISTER ITEMS
      serves the items, chains and questions, over a register of the maker's devices, writes the register,
      and prints the answers

to write applications:
  miniboot asm TEXT OUT
      assembles the text, writes its code, and prints how many bytes that has
  miniboot disasm CODE OUT
      lists the code, writes its text, and prints how many lines that has
  miniboot showcode CODE
      lists the code with labels and the place of each instruction
  miniboot appcode CODE INPUT STEPS
      runs the code on the bytes of INPUT for at most STEPS steps, 1 to 10,000,000, as layer 3 of a device
      without secrets, and prints how it ends
  miniboot callcode CODE SECRETS INPUT NEXT
      calls the code on the bytes of INPUT as that of layer 3 of a device with the secrets of the text,
      writes the secrets afterwards, and prints the answer
  miniboot app IMAGE LAYER INPUT STEPS
      runs the code of layer 2 or 3 of the device of IMAGE on the bytes of INPUT for at most STEPS steps,
      1 to 10,000,000, and prints how it ends

to learn of the program:
  miniboot --help
      prints this text
  miniboot --version
      prints the version

status: 0 done, 2 usage error, 3 malformed input, 4 an input could not be read,
        5 an output could not be written, 6 an allocation failed, 7 the command is refused
";

/// The text of `--version`. `checks/documents.sh` finds the version in CHANGELOG.md.
const VERSION: &str = "miniboot 0.2.0\n";

/// Each of the two words alone prints its text, and nothing is read or written. Any word beside it, or in its place,
/// is no command.
const ONE_WORD: Play = Play {
    failing: &[],
    steps: &[
        Step::Ends("--help", 0, HELP),
        Step::Ends("--version", 0, VERSION),
        Step::Ends("--help --help", 2, "words\n"),
        Step::Ends("--version ", 2, "words\n"),
        Step::Ends(" --help", 2, "words\n"),
        Step::Ends("--help run", 2, "words\n"),
        Step::Ends("run --help", 2, "words\n"),
        Step::Ends("--versio", 2, "words\n"),
        Step::Ends("--helps", 2, "words\n"),
        Step::Ends("--Help", 2, "words\n"),
        Step::Ends("help", 2, "words\n"),
        Step::WasCalled(0, 0, 11),
    ],
};

/// The call that prints fails.
const NOT_PRINTED: Play = Play {
    failing: &[0, 2],
    steps: &[
        Step::Ends("--help", 5, "write failed output\n"),
        Step::Ends("--version", 5, "write failed output\n"),
        Step::WasCalled(0, 0, 4),
    ],
};

#[test]
fn help_and_version_are_printed(rt: HostRuntime) -> Result<(), Fail> {
    perform(&rt, &[], &[ONE_WORD, NOT_PRINTED])
}
