//! The ends of commands that are not done, and their lines and exit statuses.

ghost use Rattle.std.specs.Prelude.{◌≡◌, ◌+◌, ◌≤◌, ◌++◌, length, decimal, codes, List, ℕ, vec_len, vec_capacity, ◌<◌, IfOk};
ghost use Rattle.mb_model.specs.outside.Texts.{line_with_lf};
ghost use Rattle.mb_model_commands.specs.Commands.{SaysLine, input_line, role_word, place_words};
ghost use Rattle.mb_console.specs.Ending.{after_space, end_line, end_status, RefusesWith};

use arrayvec::ArrayString;
use mb_host::Host;
use mb_model::NoMemory;
use mb_model_commands::{Place, Role};
use std::marker::Model;

/// The most bytes of a short line, without its LF.
pub const LINE_LIMIT: usize = 95;

/// A line without its LF, which takes no memory.
pub type ShortLine = ArrayString<LINE_LIMIT>;

/// The words for the place where an input is at fault.
type PlaceWords = ArrayString<20>;

/// A line of any length, without its LF, with room for the LF.
#[derive(Drop)]
pub struct LongLine {
    line: Vec<u8>,
    ghost room: { vec_len line < vec_capacity line },
}

impl Model for LongLine {
    ghost use Rattle.std.specs.Prelude.{List, ℕ};

    ghost Value = { List ℕ };

    ghost view = { λ long. long.line.items };
}

impl LongLine {
    /// The line of these bytes. `NoMemory` if an allocation fails.
    pub fn new(mut line: Vec<u8>) -> Result<LongLine, NoMemory>
        ensures { IfOk result (λ long. long ≡ line.items) }
    {
        line.reserve(1)?;
        Ok(LongLine { line })
    }

    /// The line with its LF.
    fn into_text(self) -> Vec<u8>
        ensures { result.items ≡ line_with_lf self }
    {
        let mut text = self.line;
        let _ = text.push(b'\n');
        text
    }
}

/// Why a command is not done.
#[derive(Drop)]
pub enum End {
    /// The words are no command.
    Words,
    /// An input is longer than a file may be.
    TooLong(Role),
    /// An input is not in its form.
    Faulty(Role, Place),
    /// An input could not be read.
    NotRead(Role),
    /// An output could not be written.
    NotWritten(Role),
    /// The text could not be printed.
    NotPrinted,
    /// An allocation failed.
    NoMemory,
    /// The command is refused with this line.
    Refused(ShortLine),
    /// The command is refused with this line, which may be long.
    RefusedAtLength(LongLine),
}

/// The end of a command that is refused with this line, of at most 95 bytes.
pub fn refused(line: &str) -> End
    requires { length line.now ≤ LINE_LIMIT }
    ensures { RefusesWith line.now result }
{
    let mut short = ArrayString::new();
    short.push_str(line);
    End::Refused(short)
}

/// The end of a command that is refused with a number, and with the offset or the place that it has, if any.
pub fn refused_by_number(number: u8, place: Option<u32>) -> End
    ensures { RefusesWith (codes "refused " ++ decimal number ++ after_space place) result }
{
    let mut line = ArrayString::new();
    line.push_str(with_number("refused ", u32::from(number)).as_str());
    line.push_str(after_space(place).as_str());
    End::Refused(line)
}

/// Prints the line of an end, and answers its exit status. The status is the same if the line cannot be printed.
pub fn stop<H: Host>(host: &mut H, end: End) -> u8
    ensures says { SaysLine (end_line end) (H.outside host.old) (H.outside host.new) }
    ensures status { result ≡ end_status end }
{
    let status = status(&end);
    say(host, end);
    status
}

/// The exit status of an end.
fn status(end: &End) -> u8
    ensures { result ≡ end_status end.now }
{
    match end {
        End::Words => 2,
        End::TooLong(_) | End::Faulty(..) => 3,
        End::NotRead(_) => 4,
        End::NotWritten(_) | End::NotPrinted => 5,
        End::NoMemory => 6,
        End::Refused(_) | End::RefusedAtLength(_) => 7,
    }
}

/// Prints the line of an end.
fn say<H: Host>(host: &mut H, end: End)
    ensures { SaysLine (end_line end) (H.outside host.old) (H.outside host.new) }
{
    match end {
        End::Words => say_line(host, "words", ""),
        End::TooLong(role) => say_input(host, role, "too long"),
        End::Faulty(role, place) => say_input(host, role, place_words(place).as_str()),
        End::NotRead(role) => say_line(host, "read failed ", role_word(role)),
        End::NotWritten(role) => say_line(host, "write failed ", role_word(role)),
        End::NotPrinted => say_line(host, "write failed ", "output"),
        End::NoMemory => say_line(host, "no memory", ""),
        End::Refused(line) => say_line(host, "", line.as_str()),
        End::RefusedAtLength(line) => say_text(host, &line.into_text()),
    }
}

/// Prints the line that says what is wrong with an input: its role, and `what`, of at most 20 bytes.
fn say_input<H: Host>(host: &mut H, role: Role, what: &str)
    requires { length what.now ≤ 20 }
    ensures { SaysLine (input_line role what.now) (H.outside host.old) (H.outside host.new) }
{
    let mut words = ShortLine::new();
    words.push_str(role_word(role));
    words.push_str(" ");
    words.push_str(what);
    say_line(host, "input ", words.as_str());
}

/// Prints a line of two parts, of at most 95 bytes together.
fn say_line<H: Host>(host: &mut H, first: &str, second: &str)
    requires { length first.now + length second.now ≤ LINE_LIMIT }
    ensures { SaysLine (first.now ++ second.now) (H.outside host.old) (H.outside host.new) }
{
    let mut line = ArrayString::<96>::new();
    line.push_str(first);
    line.push_str(second);
    line.push_str("\n");
    say_text(host, line.as_str().as_bytes());
}

/// Prints a line with its LF.
fn say_text<H: Host>(host: &mut H, text: &[u8])
    ensures { (line : List ℕ) → text.now ≡ line_with_lf line → SaysLine line (H.outside host.old) (H.outside host.new) }
{
    let _ = host.print(text);
}

/// The number after a space, or nothing if there is none.
fn after_space(number: Option<u32>) -> PlaceWords
    ensures words { result.bytes ≡ after_space number }
    ensures short { length result.bytes ≤ 20 }
{
    match number {
        Some(number) => with_number(" ", number),
        None => words_of(""),
    }
}

/// The word for an input or an output.
fn role_word(role: Role) -> &'static str
    ensures word { result.now ≡ role_word role }
    ensures short { length result.now ≤ 16 }
{
    match role {
        Role::Image => "image",
        Role::Script => "script",
        Role::Noise => "noise",
        Role::Root => "root",
        Role::Chain => "chain",
        Role::Statement => "statement",
        Role::Owner => "owner",
        Role::Code => "code",
        Role::Key => "key",
        Role::Public => "public",
        Role::Draft => "draft",
        Role::Order => "order",
        Role::Out => "out",
        Role::Endorsement => "endorsement",
        Role::Policy => "policy",
        Role::Input => "input",
        Role::Text => "text",
        Role::Register => "register",
        Role::Items => "items",
    }
}

/// The words for the place where an input is at fault.
fn place_words(place: Place) -> PlaceWords
    ensures words { result.bytes ≡ place_words place }
    ensures short { length result.bytes ≤ 20 }
{
    match place {
        Place::Length => words_of("length"),
        Place::At(offset) => with_number("at ", offset),
        Place::Line(number) => with_number("line ", number),
        Place::Root => words_of("root"),
        Place::Public => words_of("public"),
        Place::Region(number) => with_number("region ", u32::from(number)),
        Place::State => words_of("state"),
    }
}

/// The words, at most 8 bytes, and nothing after them.
fn words_of(words: &str) -> PlaceWords
    requires { length words.now ≤ 8 }
    ensures words { result.bytes ≡ words.now }
    ensures short { length result.bytes ≤ 8 }
{
    let mut text = ArrayString::new();
    text.push_str(words);
    text
}

/// The words, at most 8 bytes, and then a number.
fn with_number(words: &str, number: u32) -> PlaceWords
    requires { length words.now ≤ 8 }
    ensures words { result.bytes ≡ words.now ++ decimal number }
    ensures short { length result.bytes ≤ 20 }
{
    let mut digits = itoa::Buffer::new();
    let mut text = words_of(words);
    text.push_str(digits.format(number));
    text
}
