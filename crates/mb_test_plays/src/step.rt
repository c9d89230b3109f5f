//! Plays, their steps, and the files that they are given.

/// A file that is given.
pub struct Given {
    pub name: &'static str,
    pub content: Content,
}

/// What a given file holds.
pub enum Content {
    /// Bytes in hexadecimal.
    Hex(&'static str),
    /// A text.
    Text(&'static str),
    /// The pieces of a text.
    Pieces(&'static [&'static str]),
    /// Pieces: what each begins with, in hexadecimal, where it ends, and the byte up to there.
    Laid(&'static [(&'static str, usize, u8)]),
    /// This many bytes, all of them 7.
    Sevens(usize),
    /// This many digits, all of them 7.
    Digits(usize),
    /// A text, this many times.
    Repeats(&'static str, usize),
}

/// Steps over one host.
pub struct Play {
    /// The numbers of the host's calls that fail.
    pub failing: &'static [u64],
    pub steps: &'static [Step],
}

/// What is done in a play, or seen of its host.
pub enum Step {
    /// The words end with this status and print these lines. A line that ends in `*` fits each line that begins so, and
    /// a line `**` fits all that follow. A space separates words; one may be empty.
    Ends(&'static str, u8, &'static str),
    /// The image is served a script of these parts, with the noise of this name, which ends with status 0 and prints
    /// these lines.
    Serves(&'static [Part], &'static str, &'static str),
    /// The file of this name has these bytes, in hexadecimal.
    Holds(&'static str, &'static str),
    /// The bytes of the file of this name have this hash.
    HasHash(&'static str, &'static str),
    /// The file of this name is the line of an order whose bytes have this hash.
    IsOrder(&'static str, &'static str),
    /// There is no file of this name.
    IsMissing(&'static str),
    /// The host was called for these numbers of reads, writes and prints.
    WasCalled(u64, u64, u64),
    /// The file is written.
    Gives(Given),
    /// The file of this name is written, of these parts.
    Writes(&'static str, &'static [Part]),
    /// The files of these names have the same bytes.
    Matches(&'static str, &'static str),
    /// The flashes of the images of these names differ in these sectors, and in no other.
    Touches(&'static str, &'static str, &'static [usize]),
    /// The file of this name ends in this many zeros.
    EndsInZeros(&'static str, usize),
    /// Power is lost at each write in turn.
    IsCut(&'static Cut),
    /// Power is lost at each write of an event in turn, and again in the boot that follows.
    IsCutTwice(&'static TwoCuts),
    /// The file of this name becomes the line of the statement that was printed last.
    KeepsStatement(&'static str),
    /// Summaries were printed, and each names the hash of the file of this name.
    IsSummarised(&'static str),
    /// Each call of the host by each of these commands fails in turn.
    CallsFail(&'static [Access]),
    /// Each input of each of these commands is too long in turn.
    InputsAreLong(&'static [Access]),
    /// Each of these files ends early at each of its offsets.
    InputsAreShort(&'static [ShortFile]),
}

/// A script on an image, in which power is lost at each write in turn of what comes after the lines `before`.
pub struct Cut {
    pub image: &'static str,
    pub before: &'static str,
    pub after: &'static [Part],
    /// What may be printed if power is lost.
    pub torn: &'static [&'static str],
    /// What is printed first if there are fewer writes.
    pub whole: &'static str,
}

/// An event on an image. Power is lost at each of its writes in turn, and again at each write of the next boot.
pub struct TwoCuts {
    pub image: &'static str,
    pub noise: &'static str,
    /// The lines before the event.
    pub before: &'static str,
    /// What is printed for the lines before the event.
    pub opened: &'static str,
    pub event: &'static [Part],
    /// The lines whose replies show the state.
    pub asks: &'static str,
    /// The replies to `asks` in the state before the event.
    pub old: &'static str,
    /// The replies to `asks` in the state after the event. They equal `old` if the event leaves the state as it is.
    pub new: &'static str,
}

/// A part of a file that is written.
#[derive(Drop)]
pub enum Part {
    /// This text.
    Text(&'static str),
    /// The content of the file of this name.
    File(&'static str),
    /// The content of the file of this name, without this many of its last bytes.
    Without(&'static str, usize),
    /// The content of the file of this name from the first of these offsets up to the second.
    Slice(&'static str, usize, usize),
}

/// What a command reads and what it then writes, one after another, before it prints: the role of each file, and its
/// name among the words.
pub struct Access {
    pub words: &'static str,
    pub reads: &'static [(&'static str, &'static str)],
    pub writes: &'static [(&'static str, &'static str)],
}

/// A file that ends early at each of these offsets, and how the words then end.
pub struct ShortFile {
    pub words: &'static str,
    pub name: &'static str,
    pub status: u8,
    pub told: Told,
    pub offsets: &'static [usize],
}

/// The line that is printed for a file that ends early.
pub enum Told {
    /// This line.
    Line(&'static str),
    /// These words, and then the offset.
    Offset(&'static str),
}
